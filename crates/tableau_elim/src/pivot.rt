ghost use Rattle.std.specs.Prelude.{◌≡◌, ◌≢◌, ◌<◌, ◌+◌, suc, [], Some, None, MatchBool, IfOk, length, pos, ◌*ℤ◌, slice_set, get_or, neg_ℤ, unsigned_abs};
ghost use Rattle.std.specs.Int.{int_signum};
ghost use Rattle.std.specs.List.{AllByRecursion};
ghost use Rattle.thr_base.specs.Number.{Fits};
ghost use Rattle.lin_rows.specs.Row.{multiple_of};
ghost use Rattle.tableau_elim.specs.Tableau as specs;
ghost use Rattle.tableau_elim.specs.inside.Lines.{pivot_of, IsPivot};

use crate::numbers::{combine, turn, with_other_sign};
use crate::variable::Variable;
use farkas_cert::divide;
use std::alloc::{AllocError, Global};

/// The change of places of a line's basic and the variable at a place.
#[derive(Debug, Drop)]
pub struct Pivot {
    pub place: usize,
    /// The variable that becomes a basic.
    pub entering: Variable,
    /// The variable that goes to the place.
    pub leaving: Variable,
    /// The line's number at the place.
    pub number: i128,
    /// The line's numbers with the basic at the place.
    pub moved: Vec<i128>,
}

/// A copy of a line's numbers, in which the divisor stands at a place with the other sign.
fn moved_numbers(alloc: Global, numbers: &[i128], place: usize) -> Result<Vec<i128>, AllocError>
    requires within { suc place < length numbers.now }
    requires fits { AllByRecursion Fits numbers.now }
    ensures { IfOk result (λ moved. moved.items ≡ slice_set (slice_set numbers.now (suc place) (neg_ℤ (get_or numbers.now 0 (pos 1)))) 0 (pos 0)) }
{
    let mut moved = Vec::from_slice(alloc, numbers)?;
    moved[place + 1] = -numbers[0];
    moved[0] = 0;
    Ok(moved)
}

impl Pivot {
    /// The pivot of a line, of which the basic and the numbers are given.
    #[tactic(auto, unfolding(crate::specs::Tableau::pivot_at))]
    pub fn at(
        alloc: Global,
        places: &[Variable],
        place: usize,
        basic: Variable,
        numbers: &[i128],
    ) -> Result<Pivot, AllocError>
        requires within { place < length places.now }
        requires width { length numbers.now ≡ suc (length places.now) }
        requires fits { AllByRecursion Fits numbers.now }
        requires some { get_or numbers.now (suc place) (pos 0) ≢ pos 0 }
        ensures pivot { IfOk result (λ pivot. pivot_of pivot ≡ specs.pivot_at place (record { basic = basic; numbers = numbers.now }) (record { lines = []; places = places.now })) }
        ensures known { IfOk result (λ pivot. IsPivot (length numbers.now) (pivot_of pivot)) }
    {
        let moved = moved_numbers(alloc, numbers, place)?;
        Ok(Pivot {
            place,
            entering: places[place],
            leaving: basic,
            number: numbers[place + 1],
            moved,
        })
    }

    /// The numbers of the pivot's own line.
    #[tactic(auto, unfolding(crate::specs::Tableau::solved_line))]
    fn solve(&self, numbers: &mut [i128])
        requires known { IsPivot (length numbers.old) (pivot_of self.now) }
        ensures { numbers.new ≡ (specs.solved_line (pivot_of self.now)).numbers }
    {
        numbers.copy_from_slice(self.moved.as_slice());
        turn(numbers, self.number);
        numbers[0] = self.number.abs();
        divide(numbers);
    }

    /// What the pivot's line says is put into another line, unless a number does not fit.
    #[tactic(auto, unfolding(crate::specs::Tableau::combined_line))]
    fn substitute(&self, numbers: &mut [i128]) -> bool
        requires known { IsPivot (length numbers.old) (pivot_of self.now) }
        requires fits { AllByRecursion Fits numbers.old }
        ensures { (basic : Variable) → MatchBool result (specs.combined_line (pivot_of self.now) (record { basic = basic; numbers = numbers.old }) ≡ Some (record { basic = basic; numbers = numbers.new })) (specs.combined_line (pivot_of self.now) (record { basic = basic; numbers = numbers.old }) ≡ None) }
    {
        let share = with_other_sign(self.number, numbers[self.place + 1]);
        numbers[self.place + 1] = 0;
        if !combine(numbers, self.number.abs(), share, self.moved.as_slice()) {
            return false;
        }
        divide(numbers);
        true
    }

    /// Changes a line, unless a number does not fit. Answers whether all fit.
    #[tactic(auto, unfolding(crate::specs::Tableau::line_after_pivot))]
    pub fn change(&self, basic: &mut Variable, numbers: &mut [i128]) -> bool
        requires known { IsPivot (length numbers.old) (pivot_of self.now) }
        requires fits { AllByRecursion Fits numbers.old }
        ensures { MatchBool result (specs.line_after_pivot (pivot_of self.now) (record { basic = basic.old; numbers = numbers.old }) ≡ Some (record { basic = basic.new; numbers = numbers.new })) (specs.line_after_pivot (pivot_of self.now) (record { basic = basic.old; numbers = numbers.old }) ≡ None) }
    {
        if basic.is_same(&self.leaving) {
            *basic = self.entering;
            self.solve(numbers);
            return true;
        }
        if numbers[self.place + 1] == 0 {
            return true;
        }
        self.substitute(numbers)
    }
}
