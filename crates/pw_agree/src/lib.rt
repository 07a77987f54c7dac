//! What a project of typed units is in memory: the load order of its modules, which functions are kept, where everything
//! stands, and the bytes of its image. These are definitions alone; nothing here runs.
#![tactic(auto)]
