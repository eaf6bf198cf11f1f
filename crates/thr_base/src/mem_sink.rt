ghost use Rattle.std.specs.Prelude.{◌≡◌, ◌+◌, ◌<◌, ◌⊎◌, ◌↔◌, [], length, IfOk, OnErr, IsErr};
ghost use Rattle.thr_base.specs.Outside.{Writes, SinkFails};
ghost use Rattle.thr_base.specs.InMemory.{MemSinkView, NextFails, CountsCall, mem_sink_meaning};

use crate::failing_calls::FailingCalls;
use crate::outside::{Failed, Sink};
use crate::room::Room;
use std::alloc::{AllocError, Global};
use std::marker::Model;

/// A sink in memory with room for so many bytes, of which the writes with chosen numbers fail, counted
/// from 1. It takes no memory after it was made.
#[derive(Drop)]
pub struct MemSink {
    room: Room,
    faults: u64,
    calls: FailingCalls,
}

impl Model for MemSink {
    ghost Value = { MemSinkView };

    ghost view = { λ s. record {
      written = s.room.written;
      room = s.room.room;
      faults = s.faults;
      calls = s.calls;
    } };
}

impl MemSink {
    pub fn new(alloc: Global, room: usize, failing: Vec<u64>) -> Result<MemSink, AllocError>
        ensures { IfOk result (λ s. s ≡ record {
          written = [];
          room = room;
          faults = 0;
          calls = record { made = 0; failing = failing.items };
        }) }
    {
        Ok(MemSink {
            room: Room::new(alloc, room)?,
            faults: 0,
            calls: FailingCalls::new(failing),
        })
    }

    pub fn written(&self) -> &[u8]
        ensures { result.now ≡ self.now.written }
    {
        self.room.written()
    }
}

impl Sink for MemSink {
    ghost meaning = { mem_sink_meaning };

    fn write(&mut self, bytes: &[u8]) -> Result<usize, Failed>
        ensures written { IfOk result (λ n.
            Writes (mem_sink_meaning self.old) bytes.now n (mem_sink_meaning self.new)) }
        ensures failed { OnErr result
            (SinkFails (mem_sink_meaning self.old) (mem_sink_meaning self.new)) }
        ensures whole { IfOk result (λ n. n ≡ length bytes.now) }
        ensures fails { IsErr result ↔ (NextFails self.old.calls
            ⊎ (self.old.room < length self.old.written + length bytes.now)) }
        ensures room { self.new.room ≡ self.old.room }
        ensures counted { CountsCall self.old.calls self.new.calls }
    {
        if !self.calls.next_fails() && self.room.append(bytes) {
            return Ok(bytes.len());
        }
        self.faults = self.faults.saturating_add(1);
        Err(Failed)
    }
}
