ghost use Rattle.std.specs.Prelude.{◌≡◌, ◌+◌, ◌<◌, ◌≤◌, ◌↔◌, [], ◌++◌, length, IfOk, MatchBool, vec_len, vec_capacity};
ghost use Rattle.thr_base.specs.inside.MemFiles.{RoomView};

use std::alloc::{AllocError, Global};
use std::marker::Model;

/// Room for so many bytes, all of it reserved.
#[derive(Drop)]
pub struct Room {
    bytes: Vec<u8>,
    room: usize,
}

impl Model for Room {
    ghost Value = { RoomView };

    ghost view = { λ r. record { written = r.bytes.items; room = r.room } };

    ghost invariant = { λ r. (vec_len r.bytes ≤ r.room) × (r.room ≤ vec_capacity r.bytes) };
}

impl Room {
    pub fn new(alloc: Global, room: usize) -> Result<Room, AllocError>
        ensures { IfOk result (λ r. r ≡ record { written = []; room = room }) }
    {
        let bytes = Vec::with_capacity(alloc, room)?;
        Ok(Room { bytes, room })
    }

    pub fn written(&self) -> &[u8]
        ensures { result.now ≡ self.now.written }
    {
        &self.bytes
    }

    /// Appends the bytes if they fit in what is left of the room, and says whether they do.
    pub fn append(&mut self, bytes: &[u8]) -> bool
        ensures appended { MatchBool result
            ((length self.old.written + length bytes.now ≤ self.old.room)
            × (self.new ≡ record self.old { written = self.old.written ++ bytes.now }))
            ((self.old.room < length self.old.written + length bytes.now) × (self.new ≡ self.old)) }
    {
        if bytes.len() > self.room - self.bytes.len() {
            return false;
        }
        self.bytes.extend_from_slice(bytes).is_ok()
    }
}
