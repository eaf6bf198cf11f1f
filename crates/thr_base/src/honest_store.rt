ghost use Rattle.std.specs.Prelude.{◌≡◌, ◌↔◌, Some, true, IfOk, OnOk, OnErr, IsErr, IsTrue};
ghost use Rattle.thr_base.specs.Outside.{StoreMeaning, Closed, Lacks, Opens, Reads, StoreFails};
ghost use Rattle.thr_base.specs.InMemory.{files_of};

use crate::mem_files::MemFiles;
use crate::outside::{Failed, Store};
use std::marker::Model;

/// A store in memory that fails at nothing but a name that it lacks and a read with no file open.
#[derive(Drop)]
pub struct HonestStore {
    files: MemFiles,
    taken: u64,
    faults: u64,
}

impl Model for HonestStore {
    ghost Value = { StoreMeaning };

    ghost view = { λ s. record {
      files = Some s.files.told;
      file = s.files.file;
      taken = s.taken;
      faults = s.faults;
      honest = true;
    } };
}

impl HonestStore {
    pub fn new(files: Vec<(String, Vec<u8>)>) -> HonestStore
        ensures { result ≡ record {
          files = Some (files_of files.items);
          file = Closed;
          taken = 0;
          faults = 0;
          honest = true;
        } }
    {
        HonestStore {
            files: MemFiles::new(files),
            taken: 0,
            faults: 0,
        }
    }
}

impl Store for HonestStore {
    ghost meaning = { λ s. s };

    fn open(&mut self, name: &str) -> Result<(), Failed>
        ensures opened { OnOk result (Opens self.old name.now self.new) }
        ensures failed { OnErr result (StoreFails self.old self.new) }
        ensures honest { IsTrue self.old.honest → OnErr result (Lacks self.old.files name.now) }
        ensures lacking { IsErr result ↔ Lacks self.old.files name.now }
    {
        if self.files.open(name) {
            return Ok(());
        }
        self.faults = self.faults.saturating_add(1);
        Err(Failed)
    }

    fn read(&mut self, buf: &mut [u8]) -> Result<usize, Failed>
        ensures filled { IfOk result (λ n. Reads self.old buf.old n buf.new self.new) }
        ensures failed { OnErr result (StoreFails self.old self.new) }
        ensures honest { IsTrue self.old.honest → OnErr result (self.old.file ≡ Closed) }
        ensures closed { IsErr result ↔ (self.old.file ≡ Closed) }
    {
        match self.files.read(buf) {
            Some(n) => {
                self.taken = self.taken.saturating_add(n as u64);
                Ok(n)
            }
            None => {
                self.faults = self.faults.saturating_add(1);
                Err(Failed)
            }
        }
    }
}
