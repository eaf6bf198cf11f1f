//! What the tokens of a text are.

ghost use Rattle.std.specs.Prelude.{◌≡◌, ℕ, List, Ok};
ghost use Rattle.c_lex.specs.Tokens.{lexed, AreTokens, Lexeme, StandIn};

/// The tokens of a text are what it has at their places, which rise; each is one of its kind, and the longest that stands there.
pub fn tokens_are_those_of_texts()
    ensures places { (text : List ℕ) (tokens : List Lexeme) → lexed text ≡ Ok tokens → StandIn text 0 tokens }
    ensures longest { (text : List ℕ) (tokens : List Lexeme) → lexed text ≡ Ok tokens → AreTokens text tokens }
{}
