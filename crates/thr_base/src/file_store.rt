ghost use Rattle.std.specs.Prelude.{◌≡◌, None, false, IfOk, OnOk, OnErr, IsTrue};
ghost use Rattle.thr_base.specs.Outside.{StoreMeaning, Closed, Lacks, Opens, Reads, StoreFails};
ghost use Rattle.thr_base.specs.RealFiles.{untold};

use crate::outside::{Failed, Store};
use std::fs;
use std::io::Read;
use std::marker::Model;
use std::rt::Files;

/// The files of the system. No contract tells their bytes, and each error counts as a fault.
#[derive(Drop)]
pub struct FileStore<'a, R: Files> {
    rt: &'a R,
    file: Option<R::File>,
    taken: u64,
    faults: u64,
}

impl<'a, R: Files> Model for FileStore<'a, R> {
    ghost Value = { StoreMeaning };

    ghost view = { λ s. record {
      files = None;
      file = untold s.file;
      taken = s.taken;
      faults = s.faults;
      honest = false;
    } };
}

impl<'a, R: Files> FileStore<'a, R> {
    pub fn new(rt: &'a R) -> FileStore<'a, R>
        ensures { result ≡ record {
          files = None;
          file = Closed;
          taken = 0;
          faults = 0;
          honest = false;
        } }
    {
        FileStore {
            rt,
            file: None,
            taken: 0,
            faults: 0,
        }
    }
}

impl<'a, R: Files> Store for FileStore<'a, R> {
    ghost meaning = { λ s. s };

    fn open(&mut self, name: &str) -> Result<(), Failed> {
        match fs::open(self.rt, name) {
            Ok(file) => {
                self.file = Some(file);
                Ok(())
            }
            Err(_) => {
                self.faults = self.faults.saturating_add(1);
                Err(Failed)
            }
        }
    }

    fn read(&mut self, buf: &mut [u8]) -> Result<usize, Failed> {
        if let Some(file) = &mut self.file
            && let Ok(n) = file.read(buf)
        {
            self.taken = self.taken.saturating_add(n as u64);
            return Ok(n);
        }
        self.faults = self.faults.saturating_add(1);
        Err(Failed)
    }
}
