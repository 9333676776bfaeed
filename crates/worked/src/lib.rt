// Worked uses of whole's laws on the machine's signed operations: what each asks, answered in a line. Nothing calls these functions; they are here to be read.
#![tactic(auto)]

ghost use Rattle.std.specs.Prelude.{true, false, ◌∷◌, [], ◌≡◌, ◌<◌, ◌^◌, pos, nat_abs, ◌+ℤ◌, ◌-ℤ◌, ◌*ℤ◌, ◌≤ℤ◌, ◌<ℤ◌};
ghost use Rattle.whole.specs.Machine.{Bounds};

// A product, a sum and a difference that fit: `safe` for each operation, `ends` for the result.
pub fn above_line(y: i64, a: i64, x: i64, b: i64) -> i64
    requires { Bounds (y ∷ a ∷ x ∷ b ∷ []) (1000000 ∷ 1000 ∷ 30000 ∷ 1000000 ∷ []) }
    ensures { result ≡ y -ℤ (a *ℤ x +ℤ b) }
{
    y - (a * x + b)
}

// A signed order: `if_lt` and `if_ge`.
pub fn less(a: i64, b: i64, c: i64, d: i64) -> bool
    requires { Bounds (a ∷ b ∷ c ∷ d ∷ []) (60000 ∷ 60000 ∷ 60000 ∷ 60000 ∷ []) }
    ensures yes { result ≡ true → (a *ℤ b) <ℤ (c *ℤ d) }
    ensures no { result ≡ false → (c *ℤ d) ≤ℤ (a *ℤ b) }
{
    if a * b < c * d { true } else { false }
}

// A signed test of equality: `if_eq` and `if_ne`.
pub fn same(a: i64, b: i64) -> bool
    requires { Bounds (a ∷ b ∷ []) (60000 ∷ 60000 ∷ []) }
    ensures yes { result ≡ true → a ≡ b }
    ensures no { result ≡ false → a ≡ b → ⊥ }
{
    if a == b { true } else { false }
}

// A cast of a number that is not negative: `to_u64` and `as_u64`.
pub fn gap(low: i64, high: i64) -> u64
    requires bounds { Bounds (low ∷ high ∷ []) (30000 ∷ 30000 ∷ []) }
    requires low_le_high { low ≤ℤ high }
    ensures { result ≡ nat_abs (high -ℤ low) }
{
    (high - low) as u64
}

// A cast back: `as_i64`.
pub fn signed(n: u64) -> i64
    requires { n < 2 ^ 63 }
    ensures { result ≡ pos n }
{
    n as i64
}
