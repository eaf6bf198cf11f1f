ghost use Rattle.farkas_cert.specs.Proof.{RefutedHasNoPoint, RefutedHasNoWholePoint, PointsMeetWeightedSums, PointsMeetEntailed};
ghost use Rattle.farkas_cert.specs.Order.{RefutesInAnyOrder, SumsAlikeInAnyOrder, IsReducedInAnyOrder};

/// A refuted system has no rational point, and no whole one: a law, and no code.
pub fn refuted_has_no_point()
    ensures rational { RefutedHasNoPoint }
    ensures whole { RefutedHasNoWholePoint }
{}

/// The weighted sum of rows holds at each rational point of them: a law, and no code.
pub fn points_meet_weighted_sums()
    ensures { PointsMeetWeightedSums }
{}

/// Each whole point of a system meets every atom that it entails: a law, and no code.
pub fn points_meet_entailed()
    ensures { PointsMeetEntailed }
{}

/// A certificate of rows in another order is one of the rows, with its numbers changed: a law, and no code.
pub fn refutes_in_any_order()
    ensures refutes { RefutesInAnyOrder }
    ensures sums { SumsAlikeInAnyOrder }
    ensures reduced { IsReducedInAnyOrder }
{}
