ghost use Rattle.std.specs.Prelude.{◌≡◌, ◌<◌, ◌^◌, length, map, reverse, IfOk, IfSome};
ghost use Rattle.std.specs.List.{AllByRecursion};
ghost use Rattle.farkas_cert.specs.BackSubstitution.{set_column};
ghost use Rattle.farkas_cert.specs.Elimination as specs;
ghost use Rattle.farkas_cert.specs.Decision.{outcome_in};
ghost use Rattle.plain_elim.specs.inside.Held.{kept_of, BoundsItsColumn};

use crate::bounds::{Bounds, bound_on};
use crate::kept::Kept;
use crate::rational_point::RationalPoint;
use farkas_cert::{Decided, LeaveKind};
use lin_rows::NumberList;
use std::alloc::{AllocError, Global};

/// Sets the column of a stage, to an equality's bound or between the bounds of inequalities.
#[tactic(auto, unfolding(farkas_cert::specs::BackSubstitution::set_column))]
fn set_column(columns: u32, point: RationalPoint, kept: Kept) -> Option<RationalPoint>
    requires bounds { BoundsItsColumn columns (kept_of kept) }
    requires width { length point.numerators ≡ columns }
    ensures point { result ≡ set_column columns point (kept_of kept) }
    ensures width { IfSome result (λ next. length next.numerators ≡ columns) }
{
    match kept {
        Kept::Solved(column, line) => {
            let value = bound_on(columns, column, &point, &line)?;
            point.assigned_point(column, value)
        }
        Kept::Bounded(column, lines) => {
            let bounds = Bounds::of(columns, column, &point, &lines)?;
            point.assigned_point(column, bounds.chosen_value())
        }
    }
}

/// Sets the columns of the stages, the latest first.
fn point_from(columns: u32, mut kept: Vec<Kept>, mut point: RationalPoint) -> Decided
    requires bounds { AllByRecursion (BoundsItsColumn columns) (map kept_of kept.items) }
    requires few { length kept.items < 2 ^ 32 }
    requires width { length point.numerators ≡ columns }
    ensures { outcome_in result ≡ specs.point_from columns (reverse (map kept_of kept.items)) point }
{
    'stages: while let Some(latest) = kept.pop() {
        match set_column(columns, point, latest) {
            Some(next) => point = next,
            None => {
                return Decided::Leaves {
                    stage: kept.len() as u32 + 1,
                    kind: LeaveKind::Overflow,
                };
            }
        }
    }
    let denominator = point.denominator();
    Decided::Point(NumberList::of(point.into_numerators()), denominator)
}

/// The point between the bounds that the stages kept, which stand here in the order of the stages.
pub fn point_of(alloc: Global, columns: u32, kept: Vec<Kept>) -> Result<Decided, AllocError>
    requires bounds { AllByRecursion (BoundsItsColumn columns) (map kept_of kept.items) }
    requires few { length kept.items < 2 ^ 32 }
    ensures { IfOk result (λ decided. outcome_in decided ≡ specs.point_of columns (reverse (map kept_of kept.items))) }
{
    let zero = RationalPoint::zero(alloc, columns)?;
    Ok(point_from(columns, kept, zero))
}
