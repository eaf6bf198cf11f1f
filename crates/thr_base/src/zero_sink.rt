ghost use Rattle.std.specs.Prelude.{◌≡◌, ◌<◌, ◌↔◌, [], length, Some, IfOk, OnErr, IsErr};
ghost use Rattle.thr_base.specs.Outside.{SinkMeaning, Writes, SinkFails};

use crate::outside::{Failed, Sink};
use std::marker::Model;

/// A sink that takes nothing.
#[derive(Drop)]
pub struct ZeroSink {
    faults: u64,
}

impl Model for ZeroSink {
    ghost Value = { SinkMeaning };

    ghost view = { λ s. record { written = Some []; faults = s.faults } };
}

impl ZeroSink {
    pub fn new() -> ZeroSink
        ensures { result ≡ record { written = Some []; faults = 0 } }
    {
        ZeroSink { faults: 0 }
    }
}

impl Sink for ZeroSink {
    ghost meaning = { λ s. s };

    fn write(&mut self, bytes: &[u8]) -> Result<usize, Failed>
        ensures written { IfOk result (λ n. Writes self.old bytes.now n self.new) }
        ensures failed { OnErr result (SinkFails self.old self.new) }
        ensures fails { IsErr result ↔ (0 < length bytes.now) }
    {
        if bytes.is_empty() {
            return Ok(0);
        }
        self.faults = self.faults.saturating_add(1);
        Err(Failed)
    }
}
