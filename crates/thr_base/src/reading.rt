ghost use Rattle.std.specs.Prelude.{◌≡◌, ◌≤◌, ◌⊎◌, IsTrue, IfOk, IfErr, OnOk, OnErr, vec_len};
ghost use Rattle.thr_base.specs.Outside.{Lacks, Appends, WritesFront};
ghost use Rattle.thr_base.specs.Reading.{IsFileNamed, StopsReading, KeepsFiles};

use crate::outside::{Failed, Sink, Store};
use crate::stops::ReadStop;
use std::alloc::Global;

/// How many bytes a read asks for.
const PIECE: usize = 4096;

/// Reads the file of this name to its end, in pieces. It ends after at most `limit + 1` reads.
pub fn read_all<S: Store>(
    alloc: Global,
    store: &mut S,
    name: &str,
    limit: u32,
) -> Result<Vec<u8>, ReadStop>
    ensures within { IfOk result (λ bytes. vec_len bytes ≤ limit) }
    ensures whole { IfOk result (λ bytes.
        IsFileNamed (S.meaning store.old).files name.now bytes.items) }
    ensures stopped { IfErr result (λ stop.
        StopsReading (S.meaning store.old) name.now limit stop (S.meaning store.new)) }
    ensures lacking { Lacks (S.meaning store.old).files name.now →
        (result ≡ Err ReadStop.Fault) ⊎ (result ≡ Err ReadStop.Memory) }
    ensures kept { KeepsFiles (S.meaning store.old) (S.meaning store.new) }
{
    if let Err(Failed) = store.open(name) {
        return Err(ReadStop::Fault);
    }
    let mut piece = [0; PIECE];
    let mut bytes = Vec::new(alloc);
    loop {
        let n = match store.read(&mut piece) {
            Ok(n) => n,
            Err(Failed) => return Err(ReadStop::Fault),
        };
        if n == 0 {
            return Ok(bytes);
        }
        if n > limit as usize - bytes.len() {
            return Err(ReadStop::TooLong);
        }
        if bytes.extend_from_slice(&piece[..n]).is_err() {
            return Err(ReadStop::Memory);
        }
    }
}

/// Writes all of the bytes, in as many writes as the sink takes. It takes no memory.
pub fn write_all<K: Sink>(sink: &mut K, bytes: &[u8]) -> Result<(), Failed>
    ensures ok { OnOk result (Appends (K.meaning sink.old) bytes.now (K.meaning sink.new)) }
    ensures err { OnErr result (WritesFront (K.meaning sink.old) bytes.now (K.meaning sink.new)) }
{
    let mut written = 0;
    while written < bytes.len() {
        written += sink.write(&bytes[written..])?;
    }
    Ok(())
}
