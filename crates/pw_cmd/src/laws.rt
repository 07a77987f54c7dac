//! Laws that the commands obey, each the contract of a function, which does nothing.
ghost use Rattle.pw_cmd.specs.Laws.{CommandsReportFailures, CommandsRefuseCleanly, FilesAreReadInOrder, OneReadsItsFile};

/// Whatever the words ask for, a failed call ends the command as one, a refusal leaves all as it
/// was, and the calls on the store are the first of those that the command's order names. So it is
/// of files that are read one after another.
pub fn commands_obey_the_laws()
    ensures failures { CommandsReportFailures }
    ensures refusals { CommandsRefuseCleanly }
    ensures calls { OneReadsItsFile }
    ensures files { FilesAreReadInOrder }
{}
