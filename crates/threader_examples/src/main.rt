//! Runs the program on the examples, and tells of each run whether it answers what is stored beside them.
#![tactic(auto)]

use std::rt::Files;
use std::str::FromStr;
use std::{fs, io};
use thr_base::{FileStore, RoomSink};
use threader_cli::threader_serial;

/// A line for each run: the file that has its answer, its status, and its words.
const RUNS: &str = "runs";

/// How many bytes an answer may have.
const ROOM: usize = 1 << 16;

fn main(rt: HostRuntime) -> io::Result<()> {
    let runs = fs::read_to_string(&rt, RUNS)?;
    for run in runs.lines() {
        let verdict = if is_as_stored(&rt, run)? {
            "as stored"
        } else {
            "NOT AS STORED"
        };
        println!(rt; "{run}: {verdict}")?;
    }
    Ok(())
}

/// Whether the words of a run give its status and its stored answer.
fn is_as_stored(rt: &(impl Files + AllocGlobal), run: &str) -> io::Result<bool> {
    let mut parts = run.split_whitespace();
    let Some(file) = parts.next() else {
        return Ok(false);
    };
    let Some(Ok(wanted)) = parts.next().map(u8::from_str) else {
        return Ok(false);
    };
    let mut words = Vec::new(rt.alloc());
    for word in parts {
        words.push(String::from_str(rt.alloc(), word)?)?;
    }
    let stored = fs::read(rt, file)?;
    let mut out = RoomSink::new(rt.alloc(), ROOM)?;
    let status = threader_serial(rt.alloc(), &words, &mut FileStore::new(rt), &mut out);
    Ok(status == wanted && out.written() == stored.as_slice())
}
