//! Which calls of an object in memory are to fail.
ghost use Rattle.std.specs.Prelude.{◌≡◌, ◌↔◌, IsTrue};
ghost use Rattle.pw_io.specs.Planned.{unused, one_more, FailsNext};

use std::marker::Model;

/// The numbers of the calls that are to fail, counted from 1, and how many calls were made.
#[derive(Drop)]
pub(crate) struct Plan {
    fails: Vec<u64>,
    made: u64,
}

impl Model for Plan {
    ghost use Rattle.pw_io.specs.Planned.{Planned};

    ghost Value = { Planned };

    ghost view = { λ p. record { fails = p.fails.items; made = p.made } };
}

impl Plan {
    pub(crate) fn new(fails: Vec<u64>) -> Plan
        ensures { result ≡ unused fails.items }
    {
        Plan { fails, made: 0 }
    }

    /// Counts one more call, and says whether it is to fail.
    pub(crate) fn fails_now(&mut self) -> bool
        ensures fails { IsTrue result ↔ FailsNext self.old }
        ensures counted { self.new ≡ one_more self.old }
    {
        match self.made.checked_add(1) {
            Some(number) => {
                self.made = number;
                self.fails.contains(&number)
            }
            // No number of 64 bits is that of this call.
            None => false,
        }
    }
}
