ghost use Rattle.core_steps.specs.Bounds.{StopsTellOfLeast};

/// Where a run stopped by a limit or at what is left, and was never refined, so it is with the least set under the predicates that it
/// opened with: a law, and no code.
pub fn stops_tell_of_the_least_set()
    ensures { StopsTellOfLeast }
{}
