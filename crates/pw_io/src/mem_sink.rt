//! A sink of bytes in memory, which fails at the calls that it is asked to, and where it is full.
ghost use Rattle.std.specs.Prelude.{◌≡◌, ◌⊎◌, ◌↔◌, [], ◌∷◌, IsErr, OnOk, OnErr, IfOk};
ghost use Rattle.pw_io.specs.Faults.{risen};
ghost use Rattle.pw_io.specs.Sink.{SinkFails, wrote, flushed_all};
ghost use Rattle.pw_io.specs.Planned.{unused, one_more, FailsNext};
ghost use Rattle.pw_io.specs.InMemory.{reported_sink, IsFull};

use crate::plan::Plan;
use crate::ports::{Failed, Sink};
use pw_base::NoMemory;
use std::alloc::Global;
use std::marker::Model;

/// Bytes in memory as a sink, which fails exactly at the calls that are listed, and at a byte for which it has no room.
#[derive(Drop)]
pub struct MemSink {
    bytes: Vec<u8>,
    flushed: u64,
    room: u64,
    plan: Plan,
    faults: u64,
}

impl Model for MemSink {
    ghost use Rattle.std.specs.Prelude.{length, ◌≤◌, vec_capacity};
    ghost use Rattle.pw_io.specs.InMemory.{SinkInMemory};

    ghost Value = { SinkInMemory };

    ghost view = { λ s. record { holds = record { written = s.bytes.items; flushed = s.flushed }; room = s.room; planned = s.plan; faults = s.faults } };

    ghost invariant = { λ s. (length s.bytes.items ≤ s.room) × (s.room ≤ vec_capacity s.bytes) };
}

impl MemSink {
    /// An empty sink with room for so many bytes, whose calls with the listed numbers fail, counted from 1 over puts
    /// and flushes. The memory for the room is taken here, and none later.
    pub fn new(alloc: Global, room: u64, fails: Vec<u64>) -> Result<MemSink, NoMemory>
        ensures { IfOk result (λ s. s ≡ record {
          holds = record { written = []; flushed = 0 };
          room = room;
          planned = unused fails.items;
          faults = 0;
        }) }
    {
        Ok(MemSink {
            bytes: Vec::with_capacity(alloc, room as usize)?,
            flushed: 0,
            room,
            plan: Plan::new(fails),
            faults: 0,
        })
    }

    /// The bytes written.
    pub fn written(&self) -> &[u8]
        ensures { result.now ≡ self.now.holds.written }
    {
        self.bytes.as_slice()
    }

    /// How many of the bytes written are flushed.
    pub fn flushed(&self) -> u64
        ensures { result ≡ self.now.holds.flushed }
    {
        self.flushed
    }

    /// How many calls have failed, up to 2^64-1.
    pub fn faults(&self) -> u64
        ensures { result ≡ self.now.faults }
    {
        self.faults
    }
}

impl Sink for MemSink {
    ghost state = { reported_sink };

    /// Appends the byte; it fails exactly at the listed calls and where there is no room for it.
    fn put(&mut self, byte: u8) -> Result<(), Failed>
        ensures ok { OnOk result (reported_sink self.new ≡ wrote (byte ∷ []) (reported_sink self.old)) }
        ensures err { OnErr result (SinkFails (reported_sink self.old) (reported_sink self.new)) }
        ensures fails { IsErr result ↔ (FailsNext self.old.planned ⊎ IsFull self.old) }
        ensures one_fault { OnErr result (self.new.faults ≡ risen self.old.faults) }
        ensures counted { self.new.planned ≡ one_more self.old.planned }
        ensures room { self.new.room ≡ self.old.room }
    {
        let listed = self.plan.fails_now();
        if listed || self.bytes.len() as u64 == self.room {
            self.faults = self.faults.saturating_add(1);
            return Err(Failed);
        }
        self.bytes.push(byte).unwrap();
        Ok(())
    }

    /// Flushes every byte written; it fails exactly at the listed calls.
    fn flush(&mut self) -> Result<(), Failed>
        ensures ok { OnOk result (reported_sink self.new ≡ flushed_all (reported_sink self.old)) }
        ensures err { OnErr result (SinkFails (reported_sink self.old) (reported_sink self.new)) }
        ensures fails { IsErr result ↔ FailsNext self.old.planned }
        ensures one_fault { OnErr result (self.new.faults ≡ risen self.old.faults) }
        ensures counted { self.new.planned ≡ one_more self.old.planned }
        ensures room { self.new.room ≡ self.old.room }
    {
        if self.plan.fails_now() {
            self.faults = self.faults.saturating_add(1);
            return Err(Failed);
        }
        self.flushed = self.bytes.len() as u64;
        Ok(())
    }
}
