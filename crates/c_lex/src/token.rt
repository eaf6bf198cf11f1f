/// What a token is, by its first byte.
#[derive(Clone, Copy, Debug, PartialEq, Eq)]
pub enum Kind {
    /// A name or a word of the language.
    Word,
    /// A run of digits, whose value fits.
    Number,
    /// A mark of the profile, the longest that stands there.
    Mark,
    /// A byte of C that the profile does not use.
    Foreign,
}

/// A token, as a slice of the text that it stands in.
#[derive(Clone, Copy, Debug)]
pub struct Token<'a> {
    pub kind: Kind,
    pub text: &'a str,
    /// The place of its first byte, from 0.
    pub from: u32,
}
