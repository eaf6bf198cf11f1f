ghost use Rattle.std.specs.Prelude.{◌≡◌, ◌≢◌, ◌<◌, ◌*◌, ◌+◌, ◌^◌, ◌<ℤ◌, pos, suc, [], Some, None, MatchBool, IfOk, IfSome, length, map};
ghost use Rattle.std.specs.Option.{option_map};
ghost use Rattle.std.specs.List.{AllByRecursion};
ghost use Rattle.thr_base.specs.Number.{Fits};
ghost use Rattle.farkas_cert.specs.Elimination.{every};
ghost use Rattle.tableau_elim.specs.Tableau as specs;
ghost use Rattle.tableau_elim.specs.inside.Lines.{pivot_of, AllSound-prop, IsPivot, lines_of, line_at, IsSound};

use crate::pivot::Pivot;
use crate::variable::Variable;
use std::alloc::{AllocError, Global};

/// The lines of a tableau and the variables at its places.
#[derive(Debug, Drop)]
pub struct Tableau {
    /// The basic of each line.
    pub basics: Vec<Variable>,
    /// The numbers of all lines, one line behind the other: its divisor, and a number for each place.
    pub numbers: Vec<i128>,
    pub places: Vec<Variable>,
    ghost size: { length numbers.items ≡ length basics.items * suc (length places.items) },
    ghost sound: { AllByRecursion IsSound (lines_of (suc (length places.items)) basics.items numbers.items) } by { AllSound-prop (lines_of (suc (length places.items)) basics.items numbers.items) },
    ghost few: { length places.items < 2 ^ 32 },
}

impl Tableau {
    ghost use Rattle.tableau_elim.specs.inside.Held.{tableau_of};

    /// How many numbers a line has.
    fn width(&self) -> usize
        ensures { result ≡ suc (length self.now.places.items) }
    {
        self.places.len() + 1
    }

    /// The numbers of a line.
    pub fn numbers_of(&self, line: usize) -> &[i128]
        requires { line < length self.now.basics.items }
        ensures numbers { result.now ≡ (line_at line (tableau_of self.now)).numbers }
        ensures width { length result.now ≡ suc (length self.now.places.items) }
        ensures sound { IsSound (line_at line (tableau_of self.now)) }
    {
        let width = self.width();
        &self.numbers[line * width..(line + 1) * width]
    }

    /// The basic of a line.
    pub fn basic_of(&self, line: usize) -> Variable
        requires { line < length self.now.basics.items }
        ensures { result ≡ (line_at line (tableau_of self.now)).basic }
    {
        self.basics[line]
    }

    /// The divisor of a line.
    pub fn divisor_of(&self, line: usize) -> i128
        requires { line < length self.now.basics.items }
        ensures divisor { result ≡ specs.divisor_of (line_at line (tableau_of self.now)) }
        ensures positive { pos 0 <ℤ result }
        ensures fits { Fits result }
    {
        self.numbers_of(line)[0]
    }

    /// The pivot of a line at a place.
    fn pivot_at(&self, alloc: Global, line: usize, place: usize) -> Result<Pivot, AllocError>
        requires line { line < length self.now.basics.items }
        requires place { place < length self.now.places.items }
        requires number { specs.number_at place (line_at line (tableau_of self.now)) ≢ pos 0 }
        ensures pivot { IfOk result (λ pivot. pivot_of pivot ≡ specs.pivot_at place (line_at line (tableau_of self.now)) (tableau_of self.now)) }
        ensures known { IfOk result (λ pivot. IsPivot (suc (length self.now.places.items)) (pivot_of pivot)) }
    {
        let places = self.places.as_slice();
        let pivot = Pivot::at(
            alloc,
            places,
            place,
            self.basic_of(line),
            self.numbers_of(line),
        )?;
        Ok(pivot)
    }

    /// The basic of a line and the variable at a place change places, unless a number does not fit.
    pub fn after_pivot(
        self,
        alloc: Global,
        line: usize,
        place: usize,
    ) -> Result<Option<Tableau>, AllocError>
        requires line { line < length self.basics.items }
        requires place { place < length self.places.items }
        requires number { specs.number_at place (line_at line (tableau_of self)) ≢ pos 0 }
        ensures tableau { IfOk result (λ made. option_map tableau_of made ≡ specs.pivoted_tableau (specs.pivot_at place (line_at line (tableau_of self)) (tableau_of self)) (tableau_of self)) }
        ensures sizes { IfOk result (λ made. IfSome made (λ next. (length next.basics.items ≡ length self.basics.items) × (length next.places.items ≡ length self.places.items))) }
    {
        let pivot = self.pivot_at(alloc, line, place)?;
        let width = self.width();
        let Tableau {
            mut basics,
            mut numbers,
            mut places,
        } = self;
        if !change_all(&mut basics, &mut numbers, width, &pivot) {
            return Ok(None);
        }
        places[place] = pivot.leaving;
        Ok(Some(Tableau {
            basics,
            numbers,
            places,
        }))
    }
}

/// Changes all lines, until a number does not fit. Answers whether all fit.
fn change_all(basics: &mut [Variable], numbers: &mut [i128], width: usize, pivot: &Pivot) -> bool
    requires size { length numbers.old ≡ length basics.old * width }
    requires known { IsPivot width (pivot_of pivot.now) }
    requires sound { AllByRecursion IsSound (lines_of width basics.old numbers.old) }
    ensures { MatchBool result (every (map (specs.line_after_pivot (pivot_of pivot.now)) (lines_of width basics.old numbers.old)) ≡ Some (lines_of width basics.new numbers.new)) (every (map (specs.line_after_pivot (pivot_of pivot.now)) (lines_of width basics.old numbers.old)) ≡ None) }
{
    'lines: for line in 0..basics.len() {
        if !pivot.change(
            &mut basics[line],
            &mut numbers[line * width..(line + 1) * width],
        ) {
            return false;
        }
    }
    true
}
