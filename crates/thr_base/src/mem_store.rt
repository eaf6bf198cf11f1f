ghost use Rattle.std.specs.Prelude.{◌≡◌, ◌⊎◌, ◌↔◌, Some, false, IfOk, OnOk, OnErr, IsErr, IsTrue};
ghost use Rattle.thr_base.specs.Outside.{Closed, Lacks, Opens, Reads, StoreFails};
ghost use Rattle.thr_base.specs.InMemory.{MemStoreView, NextFails, CountsCall, files_of};

use crate::failing_calls::FailingCalls;
use crate::mem_files::MemFiles;
use crate::outside::{Failed, Store};
use std::marker::Model;

/// A store in memory of which the calls with chosen numbers fail. Calls of `open` and `read` are
/// counted together, from 1.
#[derive(Drop)]
pub struct MemStore {
    files: MemFiles,
    taken: u64,
    faults: u64,
    calls: FailingCalls,
}

impl Model for MemStore {
    ghost Value = { MemStoreView };

    ghost view = { λ s. record {
      store = record {
        files = Some s.files.told;
        file = s.files.file;
        taken = s.taken;
        faults = s.faults;
        honest = false;
      };
      calls = s.calls;
    } };
}

impl MemStore {
    pub fn new(files: Vec<(String, Vec<u8>)>, failing: Vec<u64>) -> MemStore
        ensures { result ≡ record {
          store = record {
            files = Some (files_of files.items);
            file = Closed;
            taken = 0;
            faults = 0;
            honest = false;
          };
          calls = record { made = 0; failing = failing.items };
        } }
    {
        MemStore {
            files: MemFiles::new(files),
            taken: 0,
            faults: 0,
            calls: FailingCalls::new(failing),
        }
    }
}

impl Store for MemStore {
    ghost meaning = { λ s. s.store };

    fn open(&mut self, name: &str) -> Result<(), Failed>
        ensures opened { OnOk result (Opens self.old.store name.now self.new.store) }
        ensures failed { OnErr result (StoreFails self.old.store self.new.store) }
        ensures honest { IsTrue self.old.store.honest →
            OnErr result (Lacks self.old.store.files name.now) }
        ensures fails { IsErr result ↔
            (NextFails self.old.calls ⊎ Lacks self.old.store.files name.now) }
        ensures counted { CountsCall self.old.calls self.new.calls }
    {
        if !self.calls.next_fails() && self.files.open(name) {
            return Ok(());
        }
        self.faults = self.faults.saturating_add(1);
        Err(Failed)
    }

    fn read(&mut self, buf: &mut [u8]) -> Result<usize, Failed>
        ensures filled { IfOk result (λ n. Reads self.old.store buf.old n buf.new self.new.store) }
        ensures failed { OnErr result (StoreFails self.old.store self.new.store) }
        ensures honest { IsTrue self.old.store.honest →
            OnErr result (self.old.store.file ≡ Closed) }
        ensures fails { IsErr result ↔
            (NextFails self.old.calls ⊎ (self.old.store.file ≡ Closed)) }
        ensures counted { CountsCall self.old.calls self.new.calls }
    {
        if !self.calls.next_fails()
            && let Some(n) = self.files.read(buf)
        {
            self.taken = self.taken.saturating_add(n as u64);
            return Ok(n);
        }
        self.faults = self.faults.saturating_add(1);
        Err(Failed)
    }
}
