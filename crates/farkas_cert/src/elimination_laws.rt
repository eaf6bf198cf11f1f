ghost use Rattle.std.specs.Prelude.{◌≡◌, ℕ, ◌≤◌, ℤ, List};
ghost use Rattle.lin_rows.specs.System.{System, HasWidths, IsRationalPoint};
ghost use Rattle.farkas_cert.specs.Cert.{Pairs};
ghost use Rattle.farkas_cert.specs.Elimination.{Refuted, Point, outcome_of, outcome_within};
ghost use Rattle.farkas_cert.specs.Proof.{Proves};
ghost use Rattle.farkas_cert.specs.Reduced.{IsReduced};

/// A certificate with which the elimination ends proves, and has no common divisor: a law, and no code.
pub fn certificate_proves()
    ensures proves { (system : System) (pairs : Pairs) → HasWidths system → outcome_of system ≡ Refuted pairs → Proves system pairs }
    ensures reduced { (system : System) (pairs : Pairs) → HasWidths system → outcome_of system ≡ Refuted pairs → IsReduced pairs }
{}

/// A point with which the elimination ends is one of the system: a law, and no code.
pub fn point_is_a_point()
    ensures { (system : System) (x : List ℤ) (d : ℤ) → HasWidths system → outcome_of system ≡ Point x d → IsRationalPoint system x d }
{}

/// The elimination has ended after as many stages as there are columns: a law, and no code.
pub fn more_stages_change_nothing()
    ensures { (system : System) (fuel : ℕ) → system.columns ≤ fuel → outcome_within fuel system ≡ outcome_of system }
{}
