// Lines through a fixed point: the zero-based and the front terminal-based line.
#![tactic(auto)]

ghost use Rattle.std.specs.Prelude.{cond, ◌∷◌, [], ◌≡◌, ◌<◌, ◌≤◌, pos, nat_abs, ◌-ℤ◌, ◌*ℤ◌, ◌<ℤ◌};
ghost use Rattle.std.specs.Int.Signed.{lt_z};
ghost use Rattle.whole.specs.Machine.{Bounds};
ghost use Rattle.units.specs.Units.{input_in, part_in};
ghost use Rattle.band.specs.Line.{OneValue};
ghost use Rattle.band.specs.Band.{lent, most_x, most_v, Admitted};
ghost use Rattle.fit.specs.Parts.{CourseParts};
ghost use Rattle.fit.specs.Plot.{PlotDue};
ghost use Rattle.pin.specs.Answer.{NoNegative, ZeroDue, FrontDue};
ghost use Rattle.pin.specs.Pair.{ahead, Fits, Beyond};
ghost use Rattle.pin.specs.Search.{most_num, most_den, Ready, Start, ordered, Paired, Told, Partners, Found, LineParts, OwnDistance, PinDue};

use band::is_drawn;
use fit::{Course, Drawn, Plotted, complete, lay, only};
use units::{Input, Part, gap, input_at, part_at, rise, times};

// The fixed point: the value v at the input x.
#[derive(Clone, Copy)]
struct Pin {
    x: Input,
    v: Part,
}

// Two inputs and their fraction: no line through the fixed point has both values nearer.
#[derive(Clone, Copy)]
struct Pair {
    i: usize,
    j: usize,
    num: i64,
    den: i64,
}

// How far the input i lies beyond the fixed point.
fn ahead_of(x: &[i64; 11], p: Pin, i: usize) -> i64
    requires i_bound { i < 11 }
    requires bounds { Bounds (p.x.count ∷ (input_in x.now i).count ∷ []) (most_x ∷ most_x ∷ []) }
    ensures value { result ≡ (input_in x.now i).count -ℤ p.x.count }
    ensures small { nat_abs result ≤ 60000 }
{
    gap(p.x, input_at(x, i))
}

// How far its value lies above the fixed point's.
fn rise_of(low: &[i64; 11], p: Pin, i: usize) -> i64
    requires i_bound { i < 11 }
    requires bounds { Bounds (p.v.count ∷ (part_in low.now i).count ∷ []) (most_v ∷ most_v ∷ []) }
    ensures value { result ≡ (part_in low.now i).count -ℤ p.v.count }
    ensures small { nat_abs result ≤ 206000000 }
{
    rise(p.v, part_at(low, i))
}

// The pair i, j of the values a and b at the distances s and t, in the order in which its fraction is not negative: the other order has the opposite one.
fn paired(i: usize, j: usize, a: i64, b: i64, s: i64, t: i64) -> Pair
    requires { Bounds (a ∷ b ∷ s ∷ t ∷ []) (206000000 ∷ 206000000 ∷ 60000 ∷ 60000 ∷ []) }
    ensures { result ≡ ordered i j a b s t }
{
    let u = a * t;
    let v = b * s;
    if u < v {
        Pair {
            i: j,
            j: i,
            num: v - u,
            den: t + s,
        }
    } else {
        Pair {
            i,
            j,
            num: u - v,
            den: s + t,
        }
    }
}

// Two inputs beyond the fixed point, with their fraction.
fn pair_of(
    m: usize,
    d: u64,
    x: &[i64; 11],
    low: &[i64; 11],
    high: &[i64; 11],
    p: Pin,
    i: usize,
    j: usize,
) -> Pair
    requires { Ready (lent m d x.now low.now high.now) p × Fits (lent m d x.now low.now high.now) p.x.count i j }
    ensures { Told (lent m d x.now low.now high.now) p i j result }
{
    paired(
        i,
        j,
        rise_of(low, p, i),
        rise_of(low, p, j),
        ahead_of(x, p, i),
        ahead_of(x, p, j),
    )
}

// a/b is above c/d, by cross products. The search for three inputs compares so too, but in two ways at once and within other sizes, so that one function for both would be no plainer.
fn exceeds(a: i64, b: i64, c: i64, d: i64) -> bool
    requires { Bounds (a ∷ b ∷ c ∷ d ∷ []) (most_num ∷ most_den ∷ most_num ∷ most_den ∷ []) }
    ensures { result ≡ lt_z (c *ℤ b) (a *ℤ d) }
{
    c * b < a * d
}

// The new pair or the old one.
fn consider(old: Pair, new: Pair) -> Pair
    requires { Bounds (new.num ∷ new.den ∷ old.num ∷ old.den ∷ []) (most_num ∷ most_den ∷ most_num ∷ most_den ∷ []) }
    ensures { result ≡ cond (lt_z (old.num *ℤ new.den) (new.num *ℤ old.den)) new old }
{
    if exceeds(new.num, new.den, old.num, old.den) {
        new
    } else {
        old
    }
}

// The pairs of i with later inputs.
fn over_partners(
    m: usize,
    d: u64,
    x: &[i64; 11],
    low: &[i64; 11],
    high: &[i64; 11],
    p: Pin,
    i: usize,
    old: Pair,
) -> Pair
    requires ready { Ready (lent m d x.now low.now high.now) p × Paired (lent m d x.now low.now high.now) p old }
    requires i_lt_m { (i < m) × (pos 0 <ℤ ahead (lent m d x.now low.now high.now) p.x.count i) }
    ensures { Partners (lent m d x.now low.now high.now) p old i m result }
{
    let mut best = old;
    for j in i + 1..m {
        best = consider(best, pair_of(m, d, x, low, high, p, i, j));
    }
    best
}

// The first input beyond the fixed point. The inputs rise, so that only the first can be the fixed point's own.
fn start_of(m: usize, d: u64, x: &[i64; 11], low: &[i64; 11], high: &[i64; 11], p: Pin) -> usize
    requires { Ready (lent m d x.now low.now high.now) p × Beyond (lent m d x.now low.now high.now) p.x.count }
    ensures { Start (lent m d x.now low.now high.now) p.x.count result }
{
    if p.x < input_at(x, 0) { 0 } else { 1 }
}

// The pair that keeps the lines furthest off, where n is the first input beyond the fixed point. An input with itself keeps none off, so that the search may start from the last one.
fn greatest(
    m: usize,
    d: u64,
    x: &[i64; 11],
    low: &[i64; 11],
    high: &[i64; 11],
    p: Pin,
    n: usize,
) -> Pair
    requires { Ready (lent m d x.now low.now high.now) p × Start (lent m d x.now low.now high.now) p.x.count n }
    ensures { Found (lent m d x.now low.now high.now) p result }
{
    let mut best = pair_of(m, d, x, low, high, p, m - 1, m - 1);
    for i in n..m {
        best = over_partners(m, d, x, low, high, p, i, best);
    }
    best
}

// What the point at i adds to the offset of a pair's line, in input units times parts.
fn offset_of(x: &[i64; 11], low: &[i64; 11], p: Pin, i: usize) -> i64
    requires i_bound { i < 11 }
    requires bounds { Bounds (p.x.count ∷ p.v.count ∷ (input_in x.now i).count ∷ (part_in low.now i).count ∷ []) (most_x ∷ most_v ∷ most_x ∷ most_v ∷ []) }
    ensures value { result ≡ (input_in x.now i).count *ℤ p.v.count -ℤ p.x.count *ℤ (part_in low.now i).count }
    ensures small { nat_abs result ≤ 6180000000000 }
{
    times(input_at(x, i), p.v) - times(p.x, part_at(low, i))
}

// The line that leaves both values of the pair as far off.
fn line_of(
    m: usize,
    d: u64,
    x: &[i64; 11],
    low: &[i64; 11],
    high: &[i64; 11],
    p: Pin,
    t: Pair,
) -> Course
    requires { Ready (lent m d x.now low.now high.now) p × Paired (lent m d x.now low.now high.now) p t }
    ensures { LineParts (lent m d x.now low.now high.now) p t (CourseParts result) }
{
    let a = rise_of(low, p, t.i);
    let b = rise_of(low, p, t.j);
    let u = offset_of(x, low, p, t.i);
    let v = offset_of(x, low, p, t.j);
    lay(a + b, u + v, t.den * (d as i64), t.num)
}

// How far the value at the first input lies off every line, where that input is the fixed point's own; else 0.
fn own_distance(
    m: usize,
    d: u64,
    x: &[i64; 11],
    low: &[i64; 11],
    high: &[i64; 11],
    p: Pin,
    n: usize,
) -> i64
    requires ready { Ready (lent m d x.now low.now high.now) p × Start (lent m d x.now low.now high.now) p.x.count n }
    requires beyond { Beyond (lent m d x.now low.now high.now) p.x.count }
    ensures { OwnDistance (lent m d x.now low.now high.now) p result }
{
    if n == 0 {
        0
    } else {
        exact::size(rise_of(low, p, 0)) as i64
    }
}

// The line through the fixed point whose largest deviation is least.
fn pinned(m: usize, d: u64, x: &[i64; 11], low: &[i64; 11], high: &[i64; 11], p: Pin) -> Plotted
    requires ready { Ready (lent m d x.now low.now high.now) p × Beyond (lent m d x.now low.now high.now) p.x.count }
    requires one_value { OneValue (lent m d x.now low.now high.now) }
    ensures { PlotDue (PinDue (lent m d x.now low.now high.now) p) result }
{
    let n = start_of(m, d, x, low, high, p);
    let t = greatest(m, d, x, low, high, p, n);
    let own = own_distance(m, d, x, low, high, p, n);
    if exceeds(own, 1, t.num, t.den) {
        return Plotted::Several(only(2 * own, d));
    }
    Plotted::Line(line_of(m, d, x, low, high, p, t))
}

// The zero-based line of points that it may be drawn past. It and the front one have `pinned` in common; what is left of them differs in the point, in what is asked and in what is due, so that one function would be no plainer.
pub fn zero_of(m: usize, d: u64, x: &[i64; 11], low: &[i64; 11], high: &[i64; 11]) -> Plotted
    requires { Admitted (lent m d x.now low.now high.now) × OneValue (lent m d x.now low.now high.now) × NoNegative (lent m d x.now low.now high.now) }
    ensures { PlotDue (ZeroDue (lent m d x.now low.now high.now)) result }
{
    pinned(
        m,
        d,
        x,
        low,
        high,
        Pin {
            x: Input { count: 0 },
            v: Part { count: 0 },
        },
    )
}

// The zero-based line.
pub fn zero(m: usize, d: u64, x: &[i64; 11], low: &[i64; 11], high: &[i64; 11]) -> Drawn
    ensures { ZeroDue (lent m d x.now low.now high.now) result }
{
    if !is_drawn(m, d, x, low, high) || input_at(x, 0) < (Input { count: 0 }) {
        return Drawn::Improper;
    }
    complete(zero_of(m, d, x, low, high))
}

// The front terminal-based line of points that it may be drawn past.
pub fn front_of(m: usize, d: u64, x: &[i64; 11], low: &[i64; 11], high: &[i64; 11]) -> Plotted
    requires { Admitted (lent m d x.now low.now high.now) × OneValue (lent m d x.now low.now high.now) }
    ensures { PlotDue (FrontDue (lent m d x.now low.now high.now)) result }
{
    pinned(
        m,
        d,
        x,
        low,
        high,
        Pin {
            x: input_at(x, 0),
            v: part_at(low, 0),
        },
    )
}

// The front terminal-based line.
pub fn front(m: usize, d: u64, x: &[i64; 11], low: &[i64; 11], high: &[i64; 11]) -> Drawn
    ensures { FrontDue (lent m d x.now low.now high.now) result }
{
    if !is_drawn(m, d, x, low, high) {
        return Drawn::Improper;
    }
    complete(front_of(m, d, x, low, high))
}
