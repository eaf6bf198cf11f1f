ghost use Rattle.std.specs.Prelude.{◌≡◌, ◌+◌, ◌<◌, ◌↔◌, [], length, IfOk, OnErr, IsErr};
ghost use Rattle.thr_base.specs.Outside.{Writes, SinkFails};
ghost use Rattle.thr_base.specs.InMemory.{RoomSinkView, room_sink_meaning};

use crate::outside::{Failed, Sink};
use crate::room::Room;
use std::alloc::{AllocError, Global};
use std::marker::Model;

/// A sink in memory with room for so many bytes. It takes no memory after it was made.
#[derive(Drop)]
pub struct RoomSink {
    room: Room,
    faults: u64,
}

impl Model for RoomSink {
    ghost Value = { RoomSinkView };

    ghost view = { λ s. record { written = s.room.written; room = s.room.room; faults = s.faults } };
}

impl RoomSink {
    pub fn new(alloc: Global, room: usize) -> Result<RoomSink, AllocError>
        ensures { IfOk result (λ s. s ≡ record { written = []; room = room; faults = 0 }) }
    {
        Ok(RoomSink {
            room: Room::new(alloc, room)?,
            faults: 0,
        })
    }

    pub fn written(&self) -> &[u8]
        ensures { result.now ≡ self.now.written }
    {
        self.room.written()
    }
}

impl Sink for RoomSink {
    ghost meaning = { room_sink_meaning };

    fn write(&mut self, bytes: &[u8]) -> Result<usize, Failed>
        ensures written { IfOk result (λ n.
            Writes (room_sink_meaning self.old) bytes.now n (room_sink_meaning self.new)) }
        ensures failed { OnErr result
            (SinkFails (room_sink_meaning self.old) (room_sink_meaning self.new)) }
        ensures whole { IfOk result (λ n. n ≡ length bytes.now) }
        ensures fails { IsErr result ↔ (self.old.room < length self.old.written + length bytes.now) }
        ensures room { self.new.room ≡ self.old.room }
    {
        if self.room.append(bytes) {
            return Ok(bytes.len());
        }
        self.faults = self.faults.saturating_add(1);
        Err(Failed)
    }
}
