ghost use Rattle.std.specs.Prelude.{◌≡◌, ◌^◌, ◌<◌, List, length};

/// A value that knows its whole history: an entry for how it began, and one for each change since. Entries are plain data.
pub trait Recorded {
    type Entry;

    ghost history: { Self → List Self.Entry };

    /// How many entries the history has. It takes no memory.
    fn recorded(&self) -> u64
        ensures all { result ≡ length (history self.now) }
        ensures few { result < 2 ^ 63 };
}
