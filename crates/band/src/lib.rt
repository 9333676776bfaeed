// At each of m rising inputs a lowest and a highest value, which count units of 1/d. The counts are lent: inputs, lowest and highest values.
#![tactic(auto)]

ghost use Rattle.std.specs.Prelude.{true, ◌&&◌, ◌≡◌, ◌<◌, ◌≤◌, pos, get_or};
ghost use Rattle.std.specs.Int.Signed.{le_z};
ghost use Rattle.whole.specs.Every.{every};
ghost use Rattle.whole.specs.Between.{between};
ghost use Rattle.band.specs.Band.{lent, most_v};
ghost use Rattle.band.specs.Admit.{sized, rises_to, point_ok, admits, level};

use units::{Part, input_at, part_at};

// The largest size of a value.
const MOST_V: u32 = 103000000;

fn rises(x: &[i64; 11], i: usize) -> bool
    requires { i < 11 }
    ensures { result ≡ rises_to (λ i. get_or x.now i (pos 0)) i }
{
    i == 0 || input_at(x, i - 1) < input_at(x, i)
}

// A lowest and a highest value of one input.
fn are_ordered(v: Part, w: Part) -> bool
    ensures { result ≡ (between most_v v.count && between most_v w.count) && le_z v.count w.count }
{
    limits::is_within(MOST_V, v.count) && limits::is_within(MOST_V, w.count) && v <= w
}

fn point_fine(m: usize, d: u64, x: &[i64; 11], low: &[i64; 11], high: &[i64; 11], i: usize) -> bool
    requires { i < 11 }
    ensures { result ≡ point_ok (lent m d x.now low.now high.now) i }
{
    limits::in_x(input_at(x, i)) && rises(x, i) && are_ordered(part_at(low, i), part_at(high, i))
}

fn points_fine(m: usize, d: u64, x: &[i64; 11], low: &[i64; 11], high: &[i64; 11]) -> bool
    requires { m ≤ 11 }
    ensures { result ≡ every m (point_ok (lent m d x.now low.now high.now)) }
{
    (0..m).all(|i| point_fine(m, d, x, low, high, i))
}

fn is_sized(m: usize, d: u64) -> bool
    ensures is { result ≡ sized m d }
    ensures few { result ≡ true → m ≤ 11 }
{
    (3..=11).contains(&m) && (1..=200).contains(&d)
}

// 3 to 11 inputs that rise, no lowest value above a highest, nothing beyond the largest sizes.
pub fn is_admitted(m: usize, d: u64, x: &[i64; 11], low: &[i64; 11], high: &[i64; 11]) -> bool
    ensures { result ≡ admits (lent m d x.now low.now high.now) }
{
    is_sized(m, d) && points_fine(m, d, x, low, high)
}

// One value at each input.
fn is_level(m: usize, d: u64, x: &[i64; 11], low: &[i64; 11], high: &[i64; 11]) -> bool
    requires { m ≤ 11 }
    ensures { result ≡ level (lent m d x.now low.now high.now) }
{
    (0..m).all(|i| part_at(high, i) <= part_at(low, i))
}

// A line that goes through points is drawn only of admitted points with one value at each input.
pub fn is_drawn(m: usize, d: u64, x: &[i64; 11], low: &[i64; 11], high: &[i64; 11]) -> bool
    ensures { result ≡ admits (lent m d x.now low.now high.now) && level (lent m d x.now low.now high.now) }
{
    is_admitted(m, d, x, low, high) && is_level(m, d, x, low, high)
}
