// The values that the lines of a run are drawn past, and the widths that are no line's, of its sums and limits.
#![tactic(auto)]

ghost use Rattle.std.specs.Prelude.{◌∷◌, [], ◌≡◌, ◌<◌, pos, nat_abs, ◌+ℤ◌, ◌-ℤ◌, length, ◌≤ℤ◌};
ghost use Rattle.whole.specs.Filled.{Filled};
ghost use Rattle.whole.specs.Greater.{smaller, greater};
ghost use Rattle.whole.specs.Machine.{Bounds};
ghost use Rattle.units.specs.Units.{most_s};
ghost use Rattle.bands.specs.Through.{LargestOf};
ghost use Rattle.bands.specs.Lent.{mean_in, low_in, high_in, width_in, apart, Addable, Measurable, Wide};

use units::{Part, Sum, sum_at};

// What is largest over the points: D from U, or a limit.
// It is an enum, and no closure that `widest` is passed, since the public contracts of `grounds` and `indices` name its two cases.
#[derive(Clone, Copy)]
pub enum Width {
    Swing,
    Scatter,
}

impl Width {
    fn of(self, a: Sum, b: Sum) -> Sum
        requires { Measurable self a.count b.count }
        ensures { result.count ≡ pos (apart self a.count b.count) }
    {
        match self {
            Width::Swing => units::distance(b, a),
            Width::Scatter => a.max(b),
        }
    }
}

// T at each point: U and D, the sum of the run's last stroke.
pub fn means_of(m: usize, up: &[i64; 11], down: &[i64; 11], means: &mut [i64; 11])
    requires { Addable m up.now × Addable m down.now × (length means.old ≡ 11) }
    ensures { Filled (mean_in up.now down.now) m means.new }
{
    for i in 0..m {
        means[i] = units::mean_of(sum_at(up, i), sum_at(down, i)).count;
    }
}

// The values at a point.
#[derive(Clone, Copy)]
struct Values {
    low: Part,
    high: Part,
}

// U less its limit and D more its limit, the lower one first.
fn values_of(up: Sum, down: Sum, up_limit: Sum, down_limit: Sum) -> Values
    requires { Bounds (up.count ∷ down.count ∷ up_limit.count ∷ down_limit.count ∷ []) (most_s ∷ most_s ∷ most_s ∷ most_s ∷ []) }
    ensures low { result.low.count ≡ smaller (up.count -ℤ up_limit.count) (down.count +ℤ down_limit.count) }
    ensures high { result.high.count ≡ greater (up.count -ℤ up_limit.count) (down.count +ℤ down_limit.count) }
{
    let a = units::minus(up, up_limit);
    let b = units::plus(down, down_limit);
    Values {
        low: Part::from(a.min(b)),
        high: Part::from(a.max(b)),
    }
}

// The values at each point. Limits of zero leave U and D.
pub fn pairs_of(
    m: usize,
    up: &[i64; 11],
    down: &[i64; 11],
    up_limits: &[i64; 11],
    down_limits: &[i64; 11],
    low: &mut [i64; 11],
    high: &mut [i64; 11],
)
    requires { Addable m up.now × Addable m down.now × Addable m up_limits.now × Addable m down_limits.now × (length low.old ≡ 11) × (length high.old ≡ 11) }
    ensures lows { Filled (low_in up.now down.now up_limits.now down_limits.now) m low.new }
    ensures highs { Filled (high_in up.now down.now up_limits.now down_limits.now) m high.new }
{
    for i in 0..m {
        let v = values_of(
            sum_at(up, i),
            sum_at(down, i),
            sum_at(up_limits, i),
            sum_at(down_limits, i),
        );
        low[i] = v.low.count;
        high[i] = v.high.count;
    }
}

// The largest width over the points: of D from U, or of the limits of the up stroke and of the last one.
pub fn widest(w: Width, m: usize, up: &[i64; 11], down: &[i64; 11]) -> Sum
    requires { Wide w m up.now down.now }
    ensures sign { pos 0 ≤ℤ result.count }
    ensures largest { LargestOf m (width_in w up.now down.now) (nat_abs result.count) }
{
    let mut s = w.of(sum_at(up, 0), sum_at(down, 0));
    for i in 1..m {
        s = s.max(w.of(sum_at(up, i), sum_at(down, i)));
    }
    s
}
