ghost use Rattle.std.specs.Prelude.{◌≡◌, true, pos, ◌*ℤ◌, ◌<ℤ◌, unsigned_abs};
ghost use Rattle.std.specs.Int.{int_signum};
ghost use Rattle.thr_base.specs.Number.{Fits};
ghost use Rattle.lin_rows.specs.Gcd.{gcd};
ghost use Rattle.farkas_cert.specs.Line as specs;

use lin_rows::divisor_of;

/// The greatest common divisor of two numbers, of which the second is not 0.
pub fn common_divisor(p: i128, q: i128) -> i128
    requires fits_p { Fits p }
    requires fits_q { Fits q }
    requires other { specs.is_nonzero q ≡ true }
    ensures divisor { result ≡ pos (gcd (unsigned_abs p) (unsigned_abs q)) }
    ensures positive { pos 0 <ℤ result }
{
    divisor_of(&[q, p])
}

/// The number with the sign of `p`, or 0 where `p` is 0.
pub fn with_sign_of(p: i128, q: i128) -> i128
    requires { Fits q }
    ensures sign { result ≡ int_signum p *ℤ q }
    ensures fits { Fits result }
{
    if p < 0 {
        -q
    } else if p == 0 {
        0
    } else {
        q
    }
}
