ghost use Rattle.thr_base.specs.InMemory.{mem_sink_meaning};

use crate::runs::{ASSIGNS_ONCE, ITS_TABLE, files, run, two_files, words};
use std::alloc::Global;
use std::test::Fail;
use thr_base::{Failed, HonestStore, MemSink, MemStore, RoomSink, Sink, ZeroSink};
use threader_cli::threader_serial;

#[test]
fn a_missing_file_is_a_fault(rt: HostRuntime) -> Result<(), Fail> {
    let (status, written) = run(rt.alloc(), "tables y.c", ASSIGNS_ONCE)?;
    assert_eq!(rt; status, 5);
    assert_eq!(rt; written.as_str(), "read fault\n");
    Ok(())
}

#[test]
fn a_missing_second_file_is_a_fault(rt: HostRuntime) -> Result<(), Fail> {
    let (status, written) = run(rt.alloc(), "tables x.c x.pred", ASSIGNS_ONCE)?;
    assert_eq!(rt; status, 5);
    assert_eq!(rt; written.as_str(), "read fault\n");
    Ok(())
}

/// The status, where this call of a store with these files fails, and whether the text that goes with it is written.
fn where_store_fails(
    alloc: Global,
    files: Vec<(String, Vec<u8>)>,
    call: u64,
    answer: &str,
) -> Result<(u8, bool), Fail> {
    let mut store = MemStore::new(files, vec![in alloc; call]?);
    let mut out = RoomSink::new(alloc, 64)?;
    let words = words(alloc, "tables x.c x.pred")?;
    let status = threader_serial(alloc, &words, &mut store, &mut out);
    let text = if status == 5 { "read fault\n" } else { answer };
    Ok((status, out.written() == text.as_bytes()))
}

#[test]
fn each_fault_of_the_store_is_told(rt: HostRuntime) -> Result<(), Fail> {
    // each of two files is opened, read, and read again to its end
    for (call, wanted) in [(1, 5), (2, 5), (3, 5), (4, 5), (5, 5), (6, 5), (7, 0)] {
        let files = two_files(rt.alloc(), ASSIGNS_ONCE, "end\n")?;
        let (status, written) = where_store_fails(rt.alloc(), files, call, ITS_TABLE)?;
        assert_eq!(rt; status, wanted, "call {call}");
        assert!(rt; written, "call {call}");
    }
    Ok(())
}

#[test]
fn a_refused_program_is_told_before_a_later_fault(rt: HostRuntime) -> Result<(), Fail> {
    // three calls read the program; the second file is not asked for, nor missed
    for (call, wanted) in [(1, 5), (2, 5), (3, 5), (4, 3), (5, 3)] {
        let both = two_files(rt.alloc(), "int x", "end\n")?;
        let (status, written) = where_store_fails(rt.alloc(), both, call, "program E4 5\n")?;
        assert_eq!(rt; status, wanted, "call {call}");
        assert!(rt; written, "call {call}");
        let alone = files(rt.alloc(), b"int x")?;
        let (status, written) = where_store_fails(rt.alloc(), alone, call, "program E4 5\n")?;
        assert_eq!(rt; status, wanted, "call {call}");
        assert!(rt; written, "call {call}");
    }
    Ok(())
}

#[test]
fn a_missing_second_file_is_a_fault_whatever_else_fails(rt: HostRuntime) -> Result<(), Fail> {
    for call in 1..6 {
        let files = files(rt.alloc(), ASSIGNS_ONCE.as_bytes())?;
        let (status, written) = where_store_fails(rt.alloc(), files, call, "")?;
        assert_eq!(rt; status, 5, "call {call}");
        assert!(rt; written, "call {call}");
    }
    Ok(())
}

/// A sink that takes at most four bytes at once.
#[derive(Drop)]
struct FourAtOnce {
    sink: MemSink,
}

impl Sink for FourAtOnce {
    ghost meaning = { λ s. mem_sink_meaning s.sink };

    fn write(&mut self, bytes: &[u8]) -> Result<usize, Failed> {
        self.sink.write(&bytes[..bytes.len().min(4)])
    }
}

/// The status, where this call of a sink that takes four bytes at once fails, and how many bytes of the table are written.
fn where_sink_fails(alloc: Global, call: u64) -> Result<(u8, usize), Fail> {
    let mut store = HonestStore::new(files(alloc, ASSIGNS_ONCE.as_bytes())?);
    let sink = MemSink::new(alloc, 64, vec![in alloc; call]?)?;
    let mut out = FourAtOnce { sink };
    let status = threader_serial(alloc, &words(alloc, "tables x.c")?, &mut store, &mut out);
    let written = out.sink.written();
    if !ITS_TABLE.as_bytes().starts_with(written) {
        return Err("no front of the table")?;
    }
    Ok((status, written.len()))
}

#[test]
fn each_fault_of_the_sink_leaves_a_front(rt: HostRuntime) -> Result<(), Fail> {
    // the table has 28 bytes, which seven calls write
    for (call, wanted, length) in [
        (1, 6, 0),
        (2, 6, 4),
        (3, 6, 8),
        (4, 6, 12),
        (5, 6, 16),
        (6, 6, 20),
        (7, 6, 24),
        (8, 0, 28),
    ] {
        let (status, written) = where_sink_fails(rt.alloc(), call)?;
        assert_eq!(rt; status, wanted, "call {call}");
        assert_eq!(rt; written, length, "call {call}");
    }
    Ok(())
}

#[test]
fn a_sink_that_takes_nothing_is_a_fault(rt: HostRuntime) -> Result<(), Fail> {
    for line in ["tables x.c", "tables y.c", ""] {
        let mut store = HonestStore::new(files(rt.alloc(), ASSIGNS_ONCE.as_bytes())?);
        let words = words(rt.alloc(), line)?;
        let status = threader_serial(rt.alloc(), &words, &mut store, &mut ZeroSink::new());
        assert_eq!(rt; status, 6, "{line}");
    }
    Ok(())
}
