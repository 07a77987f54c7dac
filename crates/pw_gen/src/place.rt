//! Where in a function code stands.
ghost use Rattle.std.specs.Prelude.{◌≡◌, ◌+◌, ◌<◌, ◌^◌};
ghost use Rattle.pw_gen.specs.Steps.Places.{after, in_loop};

use pw_code::Frame;

/// The words of a function, counted from its start, that `break`, `continue` and `return` jump to.
#[derive(Clone, Copy)]
pub(crate) struct Targets {
    pub(crate) break_to: u32,
    pub(crate) continue_to: u32,
    pub(crate) return_to: u32,
}

/// Where the code of a statement stands: in a function with this frame, from the word `at` on.
#[derive(Clone, Copy)]
pub(crate) struct Place {
    pub(crate) frame: Frame,
    pub(crate) targets: Targets,
    pub(crate) at: u32,
}

impl Place {
    /// The place that stands so many words further on.
    pub(crate) fn after(self, words: u32) -> Place
        requires { self.at + words < 2 ^ 32 }
        ensures { result ≡ after self words }
    {
        Place {
            at: self.at + words,
            ..self
        }
    }

    /// The place in the body of a loop that ends at the word `end`, and goes on with the word `next`.
    pub(crate) fn in_loop(self, end: u32, next: u32) -> Place
        ensures { result ≡ in_loop end next self }
    {
        Place {
            targets: Targets {
                break_to: end,
                continue_to: next,
                ..self.targets
            },
            ..self
        }
    }
}
