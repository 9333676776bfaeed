// Exact fractions: the greatest common divisor, lowest terms, and thousandths of one percent.
#![tactic(auto)]

ghost use Rattle.std.specs.Prelude.{◌≡◌, ◌<◌, ◌≤◌, nat_abs};
ghost use Rattle.exact.specs.Divisor.{Gcd};
ghost use Rattle.exact.specs.Value.{Made, NoLarger};
ghost use Rattle.exact.specs.Rounding.{Nearest, PercentDue};
ghost use Rattle.exact.specs.Terms.{signed};

use std::cmp::Ordering;

// A numerator with a sign over a positive denominator.
#[derive(Clone, Copy)]
pub struct Fraction {
    pub num: i64,
    pub den: u64,
}

impl Fraction {
    // 0/1: what stands where no other fraction does.
    pub const ZERO: Fraction = Fraction { num: 0, den: 1 };
}

// The greatest common divisor, by Euclid's rule: the remainder falls each time. Of 0 and 0 it is 0.
#[tactic(auto, using(crate::specs::Euclid::gcd_step))]
pub fn divisor(a: u64, b: u64) -> u64
    ensures { Gcd a b result }
{
    if b == 0 { a } else { divisor(b, a % b) }
}

// The size of any i64, the smallest among them, whose opposite is no i64. It is `unsigned_abs` under a name of its own, since four crates and two edits know it.
pub fn size(a: i64) -> u64
    ensures { result ≡ nat_abs a }
{
    a.unsigned_abs()
}

// m with the sign of a. No method of the library has the case of an m whose opposite is an i64 and itself is none.
fn with_sign(a: i64, m: u64) -> i64
    requires { m ≤ nat_abs a }
    ensures { result ≡ signed a m }
{
    if a < 0 {
        0_i64.strict_sub_unsigned(m)
    } else {
        m as i64
    }
}

// num/den in lowest terms; 0/1 where den is zero. No other function reduces a fraction.
#[tactic(auto, using(crate::specs::Euclid::gcd_positive))]
pub fn lowest(num: i64, den: u64) -> Fraction
    ensures made { Made num den result }
    ensures small { NoLarger num den result }
{
    if den == 0 {
        return Fraction::ZERO;
    }
    let n = num.unsigned_abs();
    let g = divisor(n, den);
    Fraction {
        num: with_sign(num, n / g),
        den: den / g,
    }
}

// The whole number nearest to v/d; of two that are equally near, the even one. No other function rounds a percent.
fn nearest(v: u64, d: u64) -> u64
    requires { 0 < d }
    ensures { Nearest v d result }
{
    let whole = v / d;
    let rest = v % d;
    let lacks = d - rest;
    match rest.cmp(&lacks) {
        Ordering::Less => whole,
        Ordering::Greater => whole + 1,
        Ordering::Equal => whole + whole % 2,
    }
}

// f in thousandths of one percent. A negative fraction, one over zero, and one whose numerator times 100,000 does not fit have none.
pub fn thousandths(f: Fraction) -> Option<u64>
    ensures { PercentDue f result }
{
    let n = u64::try_from(f.num).ok()?;
    let v = n.checked_mul(100000)?;
    (f.den != 0).then(|| nearest(v, f.den))
}
