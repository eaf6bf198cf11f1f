ghost use Rattle.std.specs.Prelude.{◌≡◌, ◌↔◌, ℕ, List, Some};
ghost use Rattle.thr_base.specs.Limits.{AreAllowed};
ghost use Rattle.command_line.specs.Once.{SayGiven};
ghost use Rattle.command_line.specs.Request.{Asks, Given, Request, given_by};

/// Words ask for one thing alone: a law, and no code.
pub fn words_ask_for_one()
    ensures { (words : List (List ℕ)) (one other : Request) → Asks words one → Asks words other → one ≡ other }
{}

/// What a run may use by words that ask for one is within bounds: a law, and no code.
pub fn limits_are_allowed()
    ensures { (words : List (List ℕ)) (request : Request) → Asks words request → AreAllowed request.options.limits }
{}

/// What words give is what stands among them: each option that is given at one place, with the value that is there, and no other; and
/// words of which this can be said give it: a law, and no code.
pub fn each_option_stands_once()
    ensures { (words : List (List ℕ)) (given : Given) → (given_by words ≡ Some given) ↔ SayGiven words given }
{}
