ghost use Rattle.std.specs.Prelude.{◌≡◌, ℕ, ◌≤◌, ℤ, List, Some};
ghost use Rattle.lin_rows.specs.System.{System, HasWidths, IsRationalPoint};
ghost use Rattle.farkas_cert.specs.Cert.{Pairs};
ghost use Rattle.farkas_cert.specs.Proof.{Proves};
ghost use Rattle.farkas_cert.specs.Reduced.{IsReduced};
ghost use Rattle.tableau_elim.specs.Tableau.{given_tableau};
ghost use Rattle.tableau_elim.specs.Rounds.{Outcome, Refuted, Point, ended_within, outcome_of};

/// A certificate with which the tableau ends proves, and has no common divisor: a law, and no code.
pub fn certificate_proves()
    ensures proves { (system : System) (pairs : Pairs) → HasWidths system → outcome_of system ≡ Refuted pairs → Proves system pairs }
    ensures reduced { (system : System) (pairs : Pairs) → HasWidths system → outcome_of system ≡ Refuted pairs → IsReduced pairs }
{}

/// A point with which the tableau ends is one of the system: a law, and no code.
pub fn point_is_a_point()
    ensures { (system : System) (x : List ℤ) (d : ℤ) → HasWidths system → outcome_of system ≡ Point x d → IsRationalPoint system x d }
{}

/// Where the tableau has ended after some pivots, leave for more changes nothing: a law, and no code.
pub fn more_pivots_change_nothing()
    ensures { (system : System) (pivots more : ℕ) (outcome : Outcome) → pivots ≤ more → ended_within pivots system (given_tableau system) ≡ Some outcome → ended_within more system (given_tableau system) ≡ Some outcome }
{}
