ghost use Rattle.std.specs.Prelude.{◌≡◌, ◌+◌, ◌<◌, ◌≤◌, [], Some, None, length, drop, MatchOption, MatchBool};
ghost use Rattle.thr_base.specs.Outside.{Closed, Left, Lacks, opened_file, file_named, FillsFront};
ghost use Rattle.thr_base.specs.InMemory.{files_of};
ghost use Rattle.thr_base.specs.inside.MemFiles.{MemFilesView, file_at, rest_of, IsOpenAt};

use std::marker::Model;

/// Files in memory, of which one may be open.
#[derive(Drop)]
pub struct MemFiles {
    files: Vec<(String, Vec<u8>)>,
    /// The index of the open file.
    current: Option<usize>,
    /// How many bytes of it were read.
    place: usize,
}

impl Model for MemFiles {
    ghost Value = { MemFilesView };

    ghost view = { λ m. let told = files_of m.files.items in
        record { told = told; file = rest_of told m.current m.place } };

    ghost invariant = { λ m. IsOpenAt (files_of m.files.items) m.current m.place };
}

impl MemFiles {
    pub fn new(files: Vec<(String, Vec<u8>)>) -> MemFiles
        ensures { result ≡ record { told = files_of files.items; file = Closed } }
    {
        MemFiles {
            files,
            current: None,
            place: 0,
        }
    }

    /// Opens the first file of this name, if there is one.
    pub fn open(&mut self, name: &str) -> bool
        ensures found { MatchBool result
            (opened_file (Some self.old.told) name.now ≡ Some self.new.file)
            ((file_named name.now self.old.told ≡ None) × (self.new ≡ self.old)) }
        ensures told { self.new.told ≡ self.old.told }
    {
        match find(&self.files, name) {
            Some(i) => {
                self.current = Some(i);
                self.place = 0;
                true
            }
            None => false,
        }
    }

    /// Takes bytes of the open file into the front of `buf`, if one is open.
    pub fn read(&mut self, buf: &mut [u8]) -> Option<usize>
        ensures filled { MatchOption result ((self.old.file ≡ Closed) × (self.new ≡ self.old))
            (λ n. FillsFront self.old.file buf.old n buf.new self.new.file) }
        ensures told { self.new.told ≡ self.old.told }
    {
        let i = self.current?;
        let n = copy_front(&bytes_at(&self.files, i)[self.place..], buf);
        self.place += n;
        Some(n)
    }
}

/// The index of the first file of this name.
fn find(files: &[(String, Vec<u8>)], name: &str) -> Option<usize>
    ensures { MatchOption result (file_named name.now (files_of files.now) ≡ None) (λ i.
        (i < length files.now)
        × (file_named name.now (files_of files.now) ≡ Some (file_at (files_of files.now) i))) }
{
    for (i, file) in files.iter().enumerate() {
        if name == file.0.as_str() {
            return Some(i);
        }
    }
    None
}

fn bytes_at(files: &[(String, Vec<u8>)], i: usize) -> &[u8]
    requires { i < length files.now }
    ensures { result.now ≡ file_at (files_of files.now) i }
{
    files[i].1.as_slice()
}

/// Copies as many of the bytes as the buffer holds into its front, and returns how many.
fn copy_front(bytes: &[u8], buf: &mut [u8]) -> usize
    ensures { FillsFront (Left bytes.now) buf.old result buf.new (Left (drop result bytes.now)) }
{
    let n = bytes.len().min(buf.len());
    buf[..n].copy_from_slice(&bytes[..n]);
    n
}
