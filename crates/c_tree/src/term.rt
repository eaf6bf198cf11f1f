//! The terminal symbols of the grammar: what a token is to it.

ghost use Rattle.std.specs.Prelude.{◌≡◌, ◌≢◌, true, false, map};
ghost use Rattle.c_lex.specs.Tokens.{view};
ghost use Rattle.c_tree.specs.Term as spec;

use c_lex::{Kind, Token};

/// What a token is to the grammar. The words and marks of the profile stand for themselves.
#[derive(Clone, Copy, Debug, PartialEq, Eq)]
pub enum Term {
    /// No token: the text ends.
    End,
    /// A word that is not reserved.
    Name,
    Number,
    /// A token that stands nowhere in the profile but in what is skipped.
    Refused,
    Static,
    Volatile,
    Extern,
    Int,
    Long,
    Void,
    MutexType,
    HandleType,
    Main,
    If,
    Else,
    While,
    For,
    Break,
    Return,
    Null,
    MutexStart,
    Nondet,
    Assume,
    AtomicBegin,
    AtomicEnd,
    Assert,
    ReachError,
    Abort,
    Create,
    Join,
    Exit,
    MutexInit,
    MutexDestroy,
    MutexLock,
    MutexUnlock,
    LeftParen,
    RightParen,
    LeftBrace,
    RightBrace,
    Semicolon,
    Comma,
    Assign,
    Equal,
    Unequal,
    Less,
    AtMost,
    Greater,
    AtLeast,
    Plus,
    Minus,
    Star,
    And,
    Or,
    Not,
    Address,
    Increment,
    Decrement,
    AddTo,
    SubtractFrom,
}

/// The reserved words.
pub const WORDS: [(&[u8], Term); 61] = [
    (b"static", Term::Static),
    (b"volatile", Term::Volatile),
    (b"extern", Term::Extern),
    (b"int", Term::Int),
    (b"long", Term::Long),
    (b"void", Term::Void),
    (b"pthread_mutex_t", Term::MutexType),
    (b"pthread_t", Term::HandleType),
    (b"main", Term::Main),
    (b"if", Term::If),
    (b"else", Term::Else),
    (b"while", Term::While),
    (b"for", Term::For),
    (b"break", Term::Break),
    (b"return", Term::Return),
    (b"NULL", Term::Null),
    (b"PTHREAD_MUTEX_INITIALIZER", Term::MutexStart),
    (b"__VERIFIER_nondet_int", Term::Nondet),
    (b"__VERIFIER_assume", Term::Assume),
    (b"__VERIFIER_atomic_begin", Term::AtomicBegin),
    (b"__VERIFIER_atomic_end", Term::AtomicEnd),
    (b"assert", Term::Assert),
    (b"reach_error", Term::ReachError),
    (b"abort", Term::Abort),
    (b"pthread_create", Term::Create),
    (b"pthread_join", Term::Join),
    (b"pthread_exit", Term::Exit),
    (b"pthread_mutex_init", Term::MutexInit),
    (b"pthread_mutex_destroy", Term::MutexDestroy),
    (b"pthread_mutex_lock", Term::MutexLock),
    (b"pthread_mutex_unlock", Term::MutexUnlock),
    (b"struct", Term::Refused),
    (b"union", Term::Refused),
    (b"enum", Term::Refused),
    (b"typedef", Term::Refused),
    (b"unsigned", Term::Refused),
    (b"signed", Term::Refused),
    (b"char", Term::Refused),
    (b"short", Term::Refused),
    (b"float", Term::Refused),
    (b"double", Term::Refused),
    (b"_Bool", Term::Refused),
    (b"bool", Term::Refused),
    (b"switch", Term::Refused),
    (b"case", Term::Refused),
    (b"default", Term::Refused),
    (b"goto", Term::Refused),
    (b"do", Term::Refused),
    (b"continue", Term::Refused),
    (b"sizeof", Term::Refused),
    (b"register", Term::Refused),
    (b"auto", Term::Refused),
    (b"inline", Term::Refused),
    (b"_Atomic", Term::Refused),
    (b"pthread_cond_t", Term::Refused),
    (b"pthread_cond_wait", Term::Refused),
    (b"pthread_cond_signal", Term::Refused),
    (b"pthread_cond_broadcast", Term::Refused),
    (b"pthread_barrier_t", Term::Refused),
    (b"sem_t", Term::Refused),
    (b"pthread_mutex_trylock", Term::Refused),
];

/// The marks.
pub const MARKS: [(&[u8], Term); 24] = [
    (b"(", Term::LeftParen),
    (b")", Term::RightParen),
    (b"{", Term::LeftBrace),
    (b"}", Term::RightBrace),
    (b";", Term::Semicolon),
    (b",", Term::Comma),
    (b"=", Term::Assign),
    (b"==", Term::Equal),
    (b"!=", Term::Unequal),
    (b"<", Term::Less),
    (b"<=", Term::AtMost),
    (b">", Term::Greater),
    (b">=", Term::AtLeast),
    (b"+", Term::Plus),
    (b"-", Term::Minus),
    (b"*", Term::Star),
    (b"&&", Term::And),
    (b"||", Term::Or),
    (b"!", Term::Not),
    (b"&", Term::Address),
    (b"++", Term::Increment),
    (b"--", Term::Decrement),
    (b"+=", Term::AddTo),
    (b"-=", Term::SubtractFrom),
];

pub fn same_term(a: Term, b: Term) -> bool
    ensures value { result ≡ spec.same_term a b }
    ensures same { result ≡ true → a ≡ b }
    ensures other { result ≡ false → a ≢ b }
{
    a == b
}

// The entry of a table for a text, or `otherwise`.
fn lookup(mut table: &[(&[u8], Term)], text: &[u8], otherwise: Term) -> Term
    ensures { result ≡ spec.lookup (map (λ e. (e.0.now, e.1)) table.entry.now) text.now otherwise }
{
    while let [entry, rest @ ..] = table {
        if entry.0 == text {
            return entry.1;
        }
        table = rest;
    }
    otherwise
}

#[tactic(auto, unfolding(crate::specs::Term::word_term, crate::specs::Term::mark_term, crate::specs::Words::words, crate::specs::Words::refused_words, crate::specs::Words::marks))]
pub fn term_of(token: &Token<'_>) -> Term
    ensures { result ≡ spec.term_of (view token.now) }
{
    let text = token.text.as_bytes();
    match token.kind {
        Kind::Word => lookup(&WORDS, text, Term::Name),
        Kind::Number => Term::Number,
        Kind::Mark => lookup(&MARKS, text, Term::Refused),
        Kind::Foreign => Term::Refused,
    }
}
