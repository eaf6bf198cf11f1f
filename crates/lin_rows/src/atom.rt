ghost use Rattle.std.specs.Prelude.{◌≡◌, ◌≢◌, ◌↔◌, ℤ, pos, ◌-ℤ◌, neg_ℤ, List, ◌++◌, map, IfOk, OnOk, OnErr};
ghost use Rattle.std.specs.List.{AllByRecursion};
ghost use Rattle.thr_base.specs.Number.{Fits};
ghost use Rattle.lin_rows.specs.Row.{Meets};
ghost use Rattle.lin_rows.specs.Atom.{IsAtom, greatest, inequality, negation};

use std::alloc::{AllocError, Global};
use std::marker::Model;

/// An inequality in its one form: `coefficients . z <= bound`.
#[derive(Debug, Drop)]
pub struct Atom {
    coefficients: Vec<i128>,
    bound: i128,
}

impl Model for Atom {
    ghost use Rattle.lin_rows.specs.Row.{Row};
    ghost use Rattle.lin_rows.specs.Atom.{IsAtom, inequality};

    ghost Value = { Row };

    ghost view = { λ inside. inequality inside.coefficients.items inside.bound };

    ghost invariant = { λ inside. IsAtom (inequality inside.coefficients.items inside.bound) };
}

impl Atom {
    pub(crate) fn of(coefficients: Vec<i128>, bound: i128) -> Atom
        requires { IsAtom (inequality coefficients.items bound) }
        ensures { result ≡ inequality coefficients.items bound }
    {
        Atom {
            coefficients,
            bound,
        }
    }

    pub fn coefficients(&self) -> &[i128]
        ensures coefficients { result.now ≡ self.now.coefficients }
        ensures atom { IsAtom self.now }
    {
        self.coefficients.as_slice()
    }

    pub fn bound(&self) -> i128
        ensures bound { result ≡ self.now.bound }
        ensures atom { IsAtom self.now }
    {
        self.bound
    }

    /// An exact copy.
    pub fn try_clone(&self, alloc: Global) -> Result<Atom, AllocError>
        ensures { IfOk result (λ copy. copy ≡ self.now) }
    {
        let coefficients = Vec::from_slice(alloc, self.coefficients())?;
        Ok(Atom::of(coefficients, self.bound()))
    }
}

/// The number with the other sign.
pub fn opposite(number: i128) -> i128
    requires { Fits number }
    ensures { result ≡ neg_ℤ number }
{
    -number
}

/// Appends the numbers with the other signs.
pub fn push_opposites(out: &mut Vec<i128>, numbers: &[i128]) -> Result<(), AllocError>
    requires { AllByRecursion Fits numbers.now }
    ensures ok { OnOk result (out.new.items ≡ out.old.items ++ map neg_ℤ numbers.now) }
    ensures err { OnErr result (out.new.items ≡ out.old.items) }
{
    let before = out.len();
    'numbers: for number in numbers {
        if out.push(opposite(*number)).is_err() {
            out.truncate(before);
            return Err(AllocError);
        }
    }
    Ok(())
}

/// The numbers with the other signs.
pub fn opposites_of(alloc: Global, numbers: &[i128]) -> Result<Vec<i128>, AllocError>
    requires { AllByRecursion Fits numbers.now }
    ensures { IfOk result (λ opposites. opposites.items ≡ map neg_ℤ numbers.now) }
{
    let mut opposites = Vec::with_capacity(alloc, numbers.len())?;
    push_opposites(&mut opposites, numbers)?;
    Ok(opposites)
}

/// `-bound - 1`.
fn bound_below(bound: i128) -> i128
    requires fits { Fits bound }
    requires has_room { bound ≢ greatest }
    ensures { result ≡ neg_ℤ bound -ℤ pos 1 }
{
    -bound - 1
}

/// The atom that holds at exactly the whole points at which `atom` does not.
pub fn negate(alloc: Global, atom: &Atom) -> Result<Atom, AllocError>
    ensures value { IfOk result (λ negated. negated ≡ negation atom.now) }
    ensures meaning { IfOk result (λ negated. (z : List ℤ) → Meets negated z ↔ (¬ Meets atom.now z)) }
{
    let coefficients = opposites_of(alloc, atom.coefficients())?;
    let bound = bound_below(atom.bound());
    Ok(Atom::of(coefficients, bound))
}
