ghost use Rattle.thr_base.specs.InMemory.{mem_sink_meaning};

use super::*;
use std::alloc::{AllocError, Global};
use std::fmt::Display;
use std::test::Fail;
use std::{env, fs, io, process};

/// Two files of one name, and an empty one.
fn some_files(alloc: Global) -> Result<Vec<(String, Vec<u8>)>, AllocError> {
    let mut files = Vec::new(alloc);
    for (name, bytes) in [
        ("a.c", b"first".as_slice()),
        ("a.c", b"second"),
        ("b.c", b""),
    ] {
        files.push((
            String::from_str(alloc, name)?,
            Vec::from_slice(alloc, bytes)?,
        ))?;
    }
    Ok(files)
}

#[test]
fn files_are_read_whole(rt: HostRuntime) -> Result<(), Fail> {
    let mut store = HonestStore::new(some_files(rt.alloc())?);
    let first = read_all(rt.alloc(), &mut store, "a.c", 5)?;
    assert_eq!(rt; first.as_slice(), b"first".as_slice());
    assert_eq!(rt; read_all(rt.alloc(), &mut store, "b.c", 0)?.len(), 0);
    assert_eq!(rt;
        read_all(rt.alloc(), &mut store, "a.c", 4).err(),
        Some(ReadStop::TooLong)
    );
    assert_eq!(rt;
        read_all(rt.alloc(), &mut store, "c.c", 4).err(),
        Some(ReadStop::Fault)
    );
    Ok(())
}

#[test]
fn a_fault_in_mid_read_ends_it(rt: HostRuntime) -> Result<(), Fail> {
    for (failing, answer) in [
        (1, Some(ReadStop::Fault)),
        (3, Some(ReadStop::Fault)),
        (4, None),
    ] {
        let mut store = MemStore::new(some_files(rt.alloc())?, vec![in rt.alloc(); failing]?);
        let stop = read_all(rt.alloc(), &mut store, "a.c", 5).err();
        assert_eq!(rt; stop, answer, "where call {failing} fails");
    }
    Ok(())
}

/// A sink that takes at most two bytes at once.
#[derive(Drop)]
struct TwoAtOnce {
    sink: MemSink,
}

impl Sink for TwoAtOnce {
    ghost meaning = { λ s. mem_sink_meaning s.sink };

    fn write(&mut self, bytes: &[u8]) -> Result<usize, Failed> {
        self.sink.write(&bytes[..bytes.len().min(2)])
    }
}

#[test]
fn a_fault_in_mid_write_leaves_a_front(rt: HostRuntime) -> Result<(), Fail> {
    for (failing, room, written) in [(9, 5, b"abcde".as_slice()), (2, 5, b"ab"), (9, 4, b"abcd")] {
        let sink = MemSink::new(rt.alloc(), room, vec![in rt.alloc(); failing]?)?;
        let mut sink = TwoAtOnce { sink };
        let all = write_all(&mut sink, b"abcde").is_ok();
        assert_eq!(rt; all, written.len() == 5);
        assert_eq!(rt; sink.sink.written(), written);
    }
    Ok(())
}

#[test]
fn a_sink_takes_what_fits(rt: HostRuntime) -> Result<(), Fail> {
    let mut sink = RoomSink::new(rt.alloc(), 3)?;
    assert_eq!(rt; write_all(&mut sink, b"ab"), Ok(()));
    assert_eq!(rt; write_all(&mut sink, b"cd"), Err(Failed));
    assert_eq!(rt; sink.written(), b"ab".as_slice());
    assert_eq!(rt; write_all(&mut ZeroSink::new(), b"a"), Err(Failed));
    OpenGate::new().pass(1, 1);
    Ok(())
}

#[test]
fn numbers_have_one_text(rt: HostRuntime) -> Result<(), Fail> {
    let most = 170141183460469231731687303715884105727;
    for (number, text) in [
        (0, "0"),
        (-1, "-1"),
        (7, "7"),
        (most, "170141183460469231731687303715884105727"),
        (-most, "-170141183460469231731687303715884105727"),
    ] {
        let mut out = Vec::from_slice(rt.alloc(), b"= ")?;
        push_number(&mut out, number)?;
        assert_eq!(rt; out[2..], *text.as_bytes());
        assert_eq!(rt; parse_number(text.as_bytes()), Some(number));
    }
    for text in [
        "",
        "-",
        "-0",
        "007",
        "+1",
        "1a",
        "170141183460469231731687303715884105728",
        "-170141183460469231731687303715884105728",
    ] {
        assert_eq!(rt; parse_number(text.as_bytes()), None, "{text}");
    }
    number_text_is_decimal();
    Ok(())
}

#[test]
fn files_of_the_system_are_read(rt: HostRuntime) -> Result<(), Fail> {
    let mut path = env::temp_dir(&rt)?;
    path.push(format!(in rt.alloc(); "thr_base-{}", process::id(rt.process()))?.as_str())?;
    let name = path.to_str().ok_or("no text")?;
    fs::write(&rt, name, b"int main")?;
    let mut store = FileStore::new(&rt);
    let bytes = read_all(rt.alloc(), &mut store, name, 8);
    fs::remove_file(&rt, name)?;
    assert_eq!(rt; bytes?.as_slice(), b"int main".as_slice());
    assert_eq!(rt;
        read_all(rt.alloc(), &mut store, name, 8).err(),
        Some(ReadStop::Fault)
    );
    Ok(())
}

/// A terminal that takes nothing.
struct Clogged;

impl Print for Clogged {
    fn print<D: Display + Drop>(&self, _value: D) -> io::Result<()> {
        Ok(())
    }

    fn println<D: Display + Drop>(&self, _value: D) -> io::Result<()> {
        Ok(())
    }

    fn write_all(&self, _bytes: &[u8]) -> io::Result<()> {
        Ok(())
    }

    fn write_some(&self, _bytes: &[u8]) -> io::Result<usize> {
        Ok(0)
    }
}

#[test]
fn the_standard_output_is_written(rt: HostRuntime) {
    assert_eq!(rt; write_all(&mut OutSink::new(&rt), b"written\n"), Ok(()));
    assert_eq!(rt;
        write_all(&mut OutSink::new(&Clogged), b"lost\n"),
        Err(Failed)
    );
}

/// An output that takes one byte at once.
struct OneAtOnce;

impl Print for OneAtOnce {
    fn print<D: Display + Drop>(&self, _value: D) -> io::Result<()> {
        Ok(())
    }

    fn println<D: Display + Drop>(&self, _value: D) -> io::Result<()> {
        Ok(())
    }

    fn write_all(&self, _bytes: &[u8]) -> io::Result<()> {
        Ok(())
    }

    fn write_some(&self, bytes: &[u8]) -> io::Result<usize> {
        Ok(bytes.len().min(1))
    }
}

#[test]
fn a_short_write_tells_how_much_it_took(rt: HostRuntime) {
    assert_eq!(rt; OutSink::new(&OneAtOnce).write(b"ab"), Ok(1));
}

#[test]
fn positions_are_held_in_rising_order(rt: HostRuntime) -> Result<(), Fail> {
    let held = with_position(with_position(with_position(0, 128), 1), 3);
    assert_eq!(rt;
        positions_of(rt.alloc(), held)?.as_slice(),
        [1, 3, 128].as_slice()
    );
    assert_eq!(rt; (holds(held, 3), holds(held, 2)), (true, false));
    positions_are_those_held();
    Ok(())
}

#[test]
fn limits_are_within_their_bounds(rt: HostRuntime) {
    assert!(rt; DEFAULT_LIMITS.are_allowed() && MOST_LIMITS.are_allowed());
    let none = Limits {
        facts: 0,
        ..DEFAULT_LIMITS
    };
    assert!(rt; !none.are_allowed());
    limits_are_as_defined();
}

#[test]
fn the_lower_place_comes_first(rt: HostRuntime) {
    let [first, second, third] = [(7, 3), (6, 4), (8, 4)].map(|(code, place)| Refusal {
        code,
        place,
    });
    assert_eq!(rt; is_earlier(first, second), true);
    assert_eq!(rt; is_earlier(second, third), true);
    assert_eq!(rt; is_earlier(third, second), false);
    assert_eq!(rt; is_earlier(first, first), false);
    codes_are_as_defined();
}

#[test]
fn stops_say_why(rt: HostRuntime) -> Result<(), Fail> {
    let refused = Stop::Refused(Refusal { code: 13, place: 3 });
    let said = format!(in rt.alloc();
        "{refused}; {}; {}",
        LineStop::BadLine(2),
        ReadStop::TooLong
    )?;
    assert_eq!(rt;
        said.as_str(),
        "E13 at byte 3; line 2 is not allowed; the file is too long"
    );
    Ok(())
}
