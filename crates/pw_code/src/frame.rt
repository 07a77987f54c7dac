//! The frame of a function's calls: how many slots of the stack a call uses.

/// The slots of a frame, doublewords each: the parameters and locals, then the values that are held while an expression is
/// evaluated. The slot after these holds the address that the call returns to.
#[derive(Clone, Copy)]
pub struct Frame {
    pub locals: u32,
    pub held: u32,
}
