ghost use Rattle.std.specs.Prelude.{◌≡◌, ◌+ℤ◌, ◌-ℤ◌, ◌*ℤ◌};
ghost use Rattle.lin_rows.specs.Exact.{fitting};

/// The sum of two numbers, where it fits. Also `-2^127`, which an `i128` holds, does not fit.
pub fn sum_if_fits(a: i128, b: i128) -> Option<i128>
    ensures { result ≡ fitting (a +ℤ b) }
{
    a.checked_add(b).filter(|sum| *sum != i128::MIN)
}

/// The difference of two numbers, where it fits.
pub fn difference_if_fits(a: i128, b: i128) -> Option<i128>
    ensures { result ≡ fitting (a -ℤ b) }
{
    a.checked_sub(b)
        .filter(|difference| *difference != i128::MIN)
}

/// The product of two numbers, where it fits.
pub fn product_if_fits(a: i128, b: i128) -> Option<i128>
    ensures { result ≡ fitting (a *ℤ b) }
{
    a.checked_mul(b).filter(|product| *product != i128::MIN)
}
