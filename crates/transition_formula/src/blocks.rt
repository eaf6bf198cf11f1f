ghost use Rattle.std.specs.Prelude.{◌≡◌, ◌<◌, ◌++◌, OnOk};
ghost use Rattle.thr_base.specs.Number.{Fits};
ghost use Rattle.transition_formula.specs.Rows.{zeros, unit};

use std::alloc::AllocError;

/// Appends zeros.
pub(crate) fn push_zeros(row: &mut Vec<i128>, count: u32) -> Result<(), AllocError>
    ensures { OnOk result (row.new.items ≡ row.old.items ++ zeros count) }
{
    'zeros: for _ in 0..count {
        row.push(0)?;
    }
    Ok(())
}

/// Appends as many numbers, of which one is not 0.
pub(crate) fn push_unit(
    row: &mut Vec<i128>,
    count: u32,
    place: u32,
    number: i128,
) -> Result<(), AllocError>
    requires within { place < count }
    requires fits { Fits number }
    ensures { OnOk result (row.new.items ≡ row.old.items ++ unit count place number) }
{
    let start = row.len();
    push_zeros(row, count)?;
    row[start + place as usize] = number;
    Ok(())
}
