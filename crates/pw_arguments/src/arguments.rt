//! What a list of arguments promises to whoever reads it, and how those after the program's name are read.
ghost use Rattle.std.specs.Prelude.{ℕ, List, Option, IfOk};
ghost use Rattle.pw_arguments.specs.Arguments.{IsArgument, AreAfterName, bytes_of};

use pw_base::NoMemory;
use std::alloc::Global;

/// The arguments that a program was started with. Number 0 is the program's name. It means the bytes of each, where they
/// are reported.
pub trait Arguments {
    ghost list: { Self → Option (List (List ℕ)) };

    /// The bytes of the argument of this number, or that there is none. Refusal: `NoMemory`.
    fn argument(&self, alloc: Global, number: usize) -> Result<Option<Vec<u8>>, NoMemory>
        ensures { IfOk result (IsArgument (list self.now) number) };
}

/// The arguments after the program's name, which is not read. Refusal: `NoMemory`.
pub fn read_arguments<A: Arguments>(alloc: Global, arguments: &A) -> Result<Vec<Vec<u8>>, NoMemory>
    ensures { IfOk result (λ found. AreAfterName (A.list arguments.now) (bytes_of found.items)) }
{
    let mut found = Vec::new(alloc);
    for number in 1..usize::MAX {
        match arguments.argument(alloc, number)? {
            Some(argument) => {
                if found.push(argument).is_err() {
                    return Err(NoMemory);
                }
            }
            None => return Ok(found),
        }
    }
    Err(NoMemory)
}
