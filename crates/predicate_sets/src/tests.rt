ghost use Rattle.std.specs.Prelude.{◌≡◌, length};
ghost use Rattle.std.specs.List.{AllByRecursion};
ghost use Rattle.thr_base.specs.Number.{Fits};
ghost use Rattle.predicate_sets.specs.Sets.{HasHome};

use super::*;
use lin_rows::{NormalForm, RowView, normal};
use std::alloc::Global;
use std::test::Fail;
use thr_base::HomeNo;

/// An answer of `add`, where the coefficients are not all 0.
fn add(
    alloc: Global,
    sets: &mut Sets,
    coefficients: &[i128],
    bound: i128,
) -> Option<Result<Added, AddStop>>
    requires home { HasHome sets.old 1 }
    requires coefficients { AllByRecursion Fits coefficients.now }
    requires bound { Fits bound }
    ensures { length sets.new ≡ length sets.old }
{
    let row = RowView {
        equal: false,
        coefficients,
        bound,
    };
    match normal(alloc, &row) {
        Ok(NormalForm::Atom(atom)) => Some(sets.add(HomeNo(1), atom)),
        _ => None,
    }
}

#[test]
fn lists_grow_and_are_put_back(rt: HostRuntime) -> Result<(), Fail> {
    let alloc = rt.alloc();
    let mut sets = Sets::new(alloc, 2)?;
    let before = sets.at(HomeNo(1))?;
    let first = add(alloc, &mut sets, &[1, -1], 3);
    let second = add(alloc, &mut sets, &[0, 1], 7);
    let again = add(alloc, &mut sets, &[2, -2], 7);
    assert_eq!(rt; first, Some(Ok(Added::New(1))));
    assert_eq!(rt; second, Some(Ok(Added::New(2))));
    assert_eq!(rt; again, Some(Ok(Added::Known(1))));
    assert_eq!(rt; sets.at(HomeNo(1))?.atoms().len(), 2);
    let set = sets.at(HomeNo(1))?;
    for (place, atom) in set.atoms().iter().enumerate() {
        assert!(rt; set.position(atom) == Some(place as u32 + 1));
        assert!(rt; is_same(atom, atom));
    }
    assert_eq!(rt; sets.at(HomeNo(2))?.atoms().len(), 0);
    assert_eq!(rt; before.atoms().len(), 0);
    sets.put(HomeNo(1), before);
    assert_eq!(rt; sets.at(HomeNo(1))?.atoms().len(), 0);
    Ok(())
}

#[test]
fn a_home_has_128_atoms(rt: HostRuntime) -> Result<(), Fail> {
    let alloc = rt.alloc();
    let mut sets = Sets::new(alloc, 1)?;
    for bound in 1u8..129 {
        let _ = add(alloc, &mut sets, &[1], i128::from(bound));
    }
    let known = add(alloc, &mut sets, &[1], 128);
    let new = add(alloc, &mut sets, &[1], 129);
    assert_eq!(rt; known, Some(Ok(Added::Known(128))));
    assert_eq!(rt; new, Some(Err(AddStop::Full)));
    Ok(())
}
