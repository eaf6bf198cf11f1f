ghost use Rattle.std.specs.Prelude.{◌≡◌, ◌↔◌, ◌≤◌, ◌+◌, ℕ, ℤ, List, None, length};
ghost use Rattle.lin_rows.specs.Gcd.{DivisorsAreGreatest, MultiplesAreLeast};
ghost use Rattle.lin_rows.specs.System.{System, part_of};
ghost use Rattle.lin_rows.specs.Sum.{sum_overflow, sum_in_order};

/// A part of a part is a part, and the part of all rows is the whole: laws, and no code.
pub fn parts_of_systems()
    ensures part { (system : System) (from to first last : ℕ) → first ≤ last → from + last ≤ to → part_of first last (part_of from to system) ≡ part_of (from + first) (from + last) system }
    ensures whole { (system : System) → part_of 0 (length system.rows) system ≡ system }
{}

/// A sum is given exactly where no product and no sum on the way is too great: a law, and no code.
pub fn sums_are_given_where_they_fit()
    ensures { (xs ys : List ℤ) → (sum_in_order xs ys ≡ None) ↔ (¬ (sum_overflow xs ys ≡ None)) }
{}

/// The greatest common divisors by Euclid's steps are that: a law, and no code.
pub fn divisors_are_greatest()
    ensures { DivisorsAreGreatest }
{}

/// The least common multiples of positive numbers are that: a law, and no code.
pub fn multiples_are_least()
    ensures { MultiplesAreLeast }
{}
