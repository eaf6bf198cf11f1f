use std::alloc::{AllocError, Global};
use std::str;
use std::test::Fail;
use thr_base::{HonestStore, RoomSink};
use threader_cli::threader_serial;

/// A program of one thread that assigns once, and its table.
pub const ASSIGNS_ONCE: &str = "int x;\nvoid *f(void *a) { x = 1; }\n\
    int main() { pthread_t t; pthread_create(&t, 0, f, 0); return 0; }\n";

pub const ITS_TABLE: &str = "s 1 1 :\ns 1 2 :\ne 1 1 :\nend\n";

/// A program of these declarations, and one thread that does this.
pub fn one(alloc: Global, globals: &str, body: &str) -> Result<String, Fail> {
    Ok(format!(in alloc;
        "{globals}\nvoid *f(void *a) {{ {body} }}\n\
int main() {{ pthread_t t; pthread_create(&t, 0, f, 0); return 0; }}\n"
    )?)
}

/// A program of these declarations, and two threads that do these.
pub fn two(alloc: Global, globals: &str, first: &str, second: &str) -> Result<String, Fail> {
    Ok(format!(in alloc;
        "{globals}\nvoid *f(void *a) {{ {first} }}\nvoid *g(void *a) {{ {second} }}\n\
int main() {{ pthread_t t; pthread_create(&t, 0, f, 0); pthread_create(&t, 0, g, 0); return 0; }}\n"
    )?)
}

/// The table of facts without predicates, whose homes are parted by commas.
pub fn bare_table(alloc: Global, homes: &str) -> Result<String, AllocError> {
    let mut table = homes.replace(alloc, ", ", " :\n")?;
    table.push_str(" :\nend\n")?;
    Ok(table)
}

/// A text in which `?` stands for a free choice, `NEWLINE` for the end of a line, `MAIN` for a `main` with one thread that runs
/// `f`, and `BOTH` for one with two threads that run `f` and `g`.
pub fn spelled(alloc: Global, text: &str) -> Result<String, AllocError> {
    let main = "int main() { pthread_t t; pthread_create(&t, 0, f, 0); return 0; }";
    let both =
        "int main() { pthread_t t; pthread_create(&t, 0, f, 0); pthread_create(&t, 0, g, 0); return 0; }";
    text.replace(alloc, "?", "__VERIFIER_nondet_int()")?
        .replace(alloc, "NEWLINE", "\n")?
        .replace(alloc, "BOTH", both)?
        .replace(alloc, "MAIN", main)
}

/// A text so many times.
pub fn times(alloc: Global, count: u32, text: &str) -> Result<String, AllocError> {
    let mut all = String::new(alloc);
    for _ in 0..count {
        all.push_str(text)?;
    }
    Ok(all)
}

/// A front, a number from 0 on, and a back, so many times.
pub fn numbered(alloc: Global, count: u32, front: &str, back: &str) -> Result<String, Fail> {
    let mut all = String::new(alloc);
    for number in 0..count {
        all.push_str(&format!(in alloc; "{front}{number}{back}")?)?;
    }
    Ok(all)
}

/// Words that are parted by blanks.
pub fn words(alloc: Global, line: &str) -> Result<Vec<String>, AllocError> {
    let mut words = Vec::new(alloc);
    for word in line.split_whitespace() {
        words.push(String::from_str(alloc, word)?)?;
    }
    Ok(words)
}

/// A file of this name with these bytes.
fn file(alloc: Global, name: &str, bytes: &[u8]) -> Result<(String, Vec<u8>), AllocError> {
    Ok((
        String::from_str(alloc, name)?,
        Vec::from_slice(alloc, bytes)?,
    ))
}

/// One file, `x.c`, with these bytes.
pub fn files(alloc: Global, bytes: &[u8]) -> Result<Vec<(String, Vec<u8>)>, AllocError> {
    let mut files = Vec::new(alloc);
    files.push(file(alloc, "x.c", bytes)?)?;
    Ok(files)
}

/// Two files: `x.c` with this text, and `x.pred` with this one.
pub fn two_files(
    alloc: Global,
    text: &str,
    predicates: &str,
) -> Result<Vec<(String, Vec<u8>)>, AllocError> {
    let mut files = files(alloc, text.as_bytes())?;
    files.push(file(alloc, "x.pred", predicates.as_bytes())?)?;
    Ok(files)
}

/// The status, and what is written, where the words are these and the store has these files.
fn run_files(
    alloc: Global,
    line: &str,
    files: Vec<(String, Vec<u8>)>,
) -> Result<(u8, String), Fail> {
    let mut store = HonestStore::new(files);
    let mut out = RoomSink::new(alloc, 1 << 16)?;
    let status = threader_serial(alloc, &words(alloc, line)?, &mut store, &mut out);
    let written = str::from_utf8(out.written())?;
    Ok((status, String::from_str(alloc, written)?))
}

/// The status, and what is written, where the words are these and the file `x.c` has this text.
pub fn run(alloc: Global, line: &str, text: &str) -> Result<(u8, String), Fail> {
    run_files(alloc, line, files(alloc, text.as_bytes())?)
}

/// The status, and what is written, where the file `x.c` has these bytes.
pub fn run_bytes(alloc: Global, bytes: &[u8]) -> Result<(u8, String), Fail> {
    run_files(alloc, "tables x.c", files(alloc, bytes)?)
}

/// The status, and what is written, where the file `x.c` has this text, and the file `x.pred` these predicates.
pub fn run_with(alloc: Global, text: &str, predicates: &str) -> Result<(u8, String), Fail> {
    run_files(
        alloc,
        "tables x.c x.pred",
        two_files(alloc, text, predicates)?,
    )
}
