ghost use Rattle.std.specs.Prelude.{◌≡◌, IfOk, OnOk, OnErr, IsTrue};
ghost use Rattle.thr_base.specs.Outside.{StoreMeaning, SinkMeaning, OpenFile, Closed, Lacks, Opens, Reads, StoreFails, Writes, SinkFails};

/// The outside did not do what it was asked.
#[derive(Clone, Copy, Debug, PartialEq, Eq)]
pub struct Failed;

/// Where files are read from. A call fails only with a fault that the store counts.
pub trait Store {
    ghost meaning: { Self → StoreMeaning };

    /// Opens a file in place of the one that was open. After an error that one is still open.
    fn open(&mut self, name: &str) -> Result<(), Failed>
        ensures opened { OnOk result (Opens (meaning self.old) name.now (meaning self.new)) }
        ensures failed { OnErr result (StoreFails (meaning self.old) (meaning self.new)) }
        ensures honest { IsTrue (meaning self.old).honest → OnErr result (Lacks (meaning self.old).files name.now) };

    /// Takes bytes of the open file into the front of `buf`, and returns how many.
    fn read(&mut self, buf: &mut [u8]) -> Result<usize, Failed>
        ensures filled { IfOk result (λ n. Reads (meaning self.old) buf.old n buf.new (meaning self.new)) }
        ensures failed { OnErr result (StoreFails (meaning self.old) (meaning self.new)) }
        ensures honest { IsTrue (meaning self.old).honest → OnErr result ((meaning self.old).file ≡ Closed) };
}

/// Where bytes are written to. A call fails only with a fault that the sink counts.
pub trait Sink {
    ghost meaning: { Self → SinkMeaning };

    /// Takes a front of the bytes, and returns how many. Taking nothing of something is a fault.
    fn write(&mut self, bytes: &[u8]) -> Result<usize, Failed>
        ensures written { IfOk result (λ n. Writes (meaning self.old) bytes.now n (meaning self.new)) }
        ensures failed { OnErr result (SinkFails (meaning self.old) (meaning self.new)) };
}

/// What a worker passes after it took a job and before it solves it. It promises nothing.
pub trait Gate {
    /// `worker` and `job` count from 1, the jobs for each worker.
    fn pass(&self, worker: u32, job: u64);
}
