ghost use Rattle.std.specs.Prelude.{◌≡◌, None};
ghost use Rattle.thr_base.specs.Outside.{SinkMeaning};

use crate::outside::{Failed, Sink};
use std::marker::Model;

/// The standard output. No contract tells what was written, and each error counts as a fault.
#[derive(Drop)]
pub struct OutSink<'a, R: Print> {
    rt: &'a R,
    faults: u64,
}

impl<'a, R: Print> Model for OutSink<'a, R> {
    ghost Value = { SinkMeaning };

    ghost view = { λ s. record { written = None; faults = s.faults } };
}

impl<'a, R: Print> OutSink<'a, R> {
    pub fn new(rt: &'a R) -> OutSink<'a, R>
        ensures { result ≡ record { written = None; faults = 0 } }
    {
        OutSink { rt, faults: 0 }
    }
}

impl<'a, R: Print> Sink for OutSink<'a, R> {
    ghost meaning = { λ s. s };

    fn write(&mut self, bytes: &[u8]) -> Result<usize, Failed> {
        match self.rt.write_some(bytes) {
            Ok(n) if n > 0 || bytes.is_empty() => Ok(n),
            _ => {
                self.faults = self.faults.saturating_add(1);
                Err(Failed)
            }
        }
    }
}
