//! A cursor over the tokens of a text.

ghost use Rattle.std.specs.Prelude.{◌≡◌};
ghost use Rattle.c_lex.specs.Tokens.{views};
ghost use Rattle.c_tree.specs.inside.Input as spec;
ghost use Rattle.c_tree.specs.inside.Input.{Reads};

use crate::term::{Term, same_term, term_of};
use c_lex::Token;
use std::marker::Model;
use thr_base::{EXPECTED, NOT_IN_PROFILE, Refusal, Stop, TOO_MANY};

#[derive(Drop)]
pub struct Tokens<'t, 'a> {
    left: &'t [Token<'a>],
    /// What the first token is.
    term: Term,
    /// The length of the text.
    end: u32,
}

impl<'t, 'a> Model for Tokens<'t, 'a> {
    ghost use Rattle.c_tree.specs.inside.Input.{Input};

    ghost Value = { Input };

    ghost use Rattle.c_tree.specs.inside.Cursor.{input_of, IsReady};

    ghost view = { input_of };

    ghost invariant = { IsReady };
}

fn first_term(left: &[Token<'_>]) -> Term
    ensures { result ≡ spec.term_at (views left.now) }
{
    match left.first() {
        None => Term::End,
        Some(token) => term_of(token),
    }
}

impl<'t, 'a> Tokens<'t, 'a> {
    pub fn new(left: &'t [Token<'a>], end: u32) -> Tokens<'t, 'a>
        ensures { result ≡ record { tokens = views left.now; end = end } }
    {
        let term = first_term(left);
        Tokens { left, term, end }
    }

    #[tactic(auto, unfolding(crate::specs::inside::Input::peek))]
    pub fn peek(&self) -> Term
        ensures { result ≡ spec.peek self.now }
    {
        self.term
    }

    /// Where the next token begins, or the text ends.
    #[tactic(auto, unfolding(crate::specs::inside::Input::place))]
    pub fn place(&self) -> u32
        ensures { result ≡ spec.place self.now }
    {
        match self.left.first() {
            None => self.end,
            Some(token) => token.from,
        }
    }

    #[tactic(auto, unfolding(crate::specs::inside::Input::bytes))]
    pub fn text(&self) -> &'a str
        ensures { result.now ≡ spec.bytes self.now }
    {
        match self.left.first() {
            None => "",
            Some(token) => token.text,
        }
    }

    /// Takes the next token, and returns where it begins.
    #[tactic(auto, unfolding(crate::specs::inside::Input::place, crate::specs::inside::Input::next))]
    pub fn take(&mut self) -> u32
        ensures place { result ≡ spec.place self.old }
        ensures next { self.new ≡ spec.next self.old }
    {
        let place = self.place();
        if let [_, left @ ..] = self.left {
            self.term = first_term(left);
            self.left = left;
        }
        place
    }

    /// No text of the grammar has the next token there.
    #[tactic(auto, unfolding(crate::specs::inside::Input::refusal, crate::specs::inside::Input::peek, crate::specs::inside::Input::place))]
    pub fn refuse(&self) -> Stop
        ensures { result ≡ Stop.Refused (spec.refusal self.now) }
    {
        let code = match self.term {
            Term::Refused => NOT_IN_PROFILE,
            _ => EXPECTED,
        };
        Stop::Refused(Refusal {
            code,
            place: self.place(),
        })
    }

    /// The next token opens a level too many.
    #[tactic(auto, unfolding(crate::specs::inside::Input::too_deep, crate::specs::inside::Input::place))]
    pub fn refuse_deep(&self) -> Stop
        ensures { result ≡ Stop.Refused (spec.too_deep self.now) }
    {
        Stop::Refused(Refusal {
            code: TOO_MANY,
            place: self.place(),
        })
    }

    #[tactic(auto, unfolding(crate::specs::inside::Input::sees))]
    pub fn sees(&self, term: Term) -> bool
        ensures { result ≡ spec.sees term self.now }
    {
        same_term(self.peek(), term)
    }

    #[tactic(auto, unfolding(crate::specs::inside::Input::after))]
    pub fn eat(&mut self, term: Term) -> bool
        ensures found { result ≡ spec.sees term self.old }
        ensures after { self.new ≡ spec.after term self.old }
    {
        let is_there = self.sees(term);
        if is_there {
            self.take();
        }
        is_there
    }

    #[tactic(auto, unfolding(crate::specs::inside::Input::expect))]
    pub fn expect(&mut self, term: Term) -> Result<u32, Stop>
        ensures { Reads (spec.expect term self.old) result self.new }
    {
        if self.sees(term) {
            Ok(self.take())
        } else {
            Err(self.refuse())
        }
    }
}
