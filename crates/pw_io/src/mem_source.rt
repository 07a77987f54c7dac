//! A source of bytes in memory, which fails at the calls that it is asked to.
ghost use Rattle.std.specs.Prelude.{◌≡◌, ◌↔◌};
ghost use Rattle.pw_io.specs.Faults.{risen};
ghost use Rattle.pw_io.specs.Source.{Gives};
ghost use Rattle.pw_io.specs.Planned.{unused, one_more, FailsNext};
ghost use Rattle.pw_io.specs.InMemory.{reported_source};

use crate::plan::Plan;
use crate::ports::{Next, Source};
use std::marker::Model;

/// Bytes in memory as a source, which fails exactly at the calls that are listed.
#[derive(Drop)]
pub struct MemSource {
    bytes: Vec<u8>,
    next: usize,
    plan: Plan,
    faults: u64,
}

impl Model for MemSource {
    ghost use Rattle.std.specs.Prelude.{length, drop, ◌≤◌};
    ghost use Rattle.pw_io.specs.InMemory.{SourceInMemory};

    ghost Value = { SourceInMemory };

    ghost view = { λ s. record { left = drop s.next s.bytes.items; planned = s.plan; faults = s.faults } };

    ghost invariant = { λ s. s.next ≤ length s.bytes.items };
}

impl MemSource {
    /// A source of these bytes, whose calls with the listed numbers fail, counted from 1. No memory is taken.
    pub fn new(bytes: Vec<u8>, fails: Vec<u64>) -> MemSource
        ensures { result ≡ record { left = bytes.items; planned = unused fails.items; faults = 0 } }
    {
        MemSource {
            bytes,
            next: 0,
            plan: Plan::new(fails),
            faults: 0,
        }
    }

    /// The bytes left.
    pub fn left(&self) -> &[u8]
        ensures { result.now ≡ self.now.left }
    {
        &self.bytes[self.next..]
    }

    /// How many calls have failed, up to 2^64-1.
    pub fn faults(&self) -> u64
        ensures { result ≡ self.now.faults }
    {
        self.faults
    }
}

impl Source for MemSource {
    ghost state = { reported_source };

    /// The first byte left, or the end; it fails exactly at the listed calls.
    fn next(&mut self) -> Next
        ensures gives { Gives (reported_source self.old) result (reported_source self.new) }
        ensures fails { (result ≡ Next.Failed) ↔ FailsNext self.old.planned }
        ensures one_fault { result ≡ Next.Failed → self.new.faults ≡ risen self.old.faults }
        ensures counted { self.new.planned ≡ one_more self.old.planned }
    {
        if self.plan.fails_now() {
            self.faults = self.faults.saturating_add(1);
            return Next::Failed;
        }
        match self.bytes.get(self.next) {
            Some(byte) => {
                self.next += 1;
                Next::Byte(*byte)
            }
            None => Next::End,
        }
    }
}
