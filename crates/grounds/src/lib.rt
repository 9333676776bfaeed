// What each index of a run stands on: its line and its width, of the run's sums, means and limits.
#![tactic(auto)]

ghost use Rattle.std.specs.Prelude.{◌≡◌, ◌*◌, ◌-◌, ◌≤◌, eqb, pos, nat_abs, get_or, length};
ghost use Rattle.std.specs.Int.Signed.{lt_z};
ghost use Rattle.run.specs.Run.{lent, group};
ghost use Rattle.run.specs.Checks.{verdict};
ghost use Rattle.groups.specs.Limit.{BothLimits};
ghost use Rattle.band.specs.Band.{Admitted};
ghost use Rattle.fit.specs.Answer.{BestDue};
ghost use Rattle.fit.specs.Plot.{PlotDue};
ghost use Rattle.bands.specs.Lent.{Addable};
ghost use Rattle.bands.specs.Through as T;
ghost use Rattle.due.specs.Ground.{Answered, GroundDue};
ghost use Rattle.due.specs.declared.Index.TheVariants as index;
ghost use Rattle.grounds.specs.Basis.{Summed, Meant, Sides, Spanned, span_in, pairs};
ghost use Rattle.grounds.specs.Found.{owned, stood, Narrow, Widened, wide_index};

use bands::{Width, means_of, pairs_of, widest};
use due::{Based, Ground};
use fit::{Course, Plotted};
use groups::sums_of;
use limits::Sizes;
use units::{Input, Sum, input_at};

// What refuses an index that needs the way back, of a run that has an up stroke only. It comes before 13.
const UP_ONLY: u8 = 16;

// U, D and T at each point: D is the sum of the stroke that comes last, which is the up stroke where there is no other.
pub fn summed(
    z: Sizes,
    x: &[i64; 11],
    y: &[i64; 220],
    up: &mut [i64; 11],
    down: &mut [i64; 11],
    means: &mut [i64; 11],
)
    requires { ((verdict (lent z x.now y.now)).number ≡ 0) × (length up.old ≡ 11) × (length down.old ≡ 11) × (length means.old ≡ 11) }
    ensures { Summed (lent z x.now y.now) up.new down.new means.new }
{
    let m = z.m;
    let n = z.n;
    let last = z.strokes - 1;
    sums_of(m, n, y, 0, up);
    sums_of(m, n, y, last, down);
    means_of(m, up, down, means);
}

// Last x minus first x.
pub fn span_of(m: usize, x: &[i64; 11]) -> u64
    requires { Spanned m x.now }
    ensures value { result ≡ span_in m x.now }
    ensures small { result ≤ 60000 }
{
    exact::size(units::gap(input_at(x, 0), input_at(x, m - 1)))
}

// Means are counted in units of 1/(2n).
fn mean_unit(n: usize) -> u64
    requires { n ≤ 10 }
    ensures { result ≡ 2 * n }
{
    2 * (n as u64)
}

// ---- A line with its own width.
fn own(c: Course) -> Based
    ensures { result ≡ owned c }
{
    Based {
        a: c.a,
        b: c.b,
        q: c.q,
        num: c.w,
        unit: 1,
    }
}

fn on_plot(p: Plotted) -> Ground
    ensures { result ≡ stood p }
{
    match p {
        Plotted::Line(c) => Ground::Line(own(c)),
        Plotted::Several(h) => Ground::Several(h),
    }
}

pub fn terminal(z: Sizes, x: &[i64; 11], y: &[i64; 220], means: &[i64; 11]) -> Ground
    requires { Meant z x.now y.now means.now }
    ensures { GroundDue index.Terminal (lent z x.now y.now) result }
{
    Ground::Line(own(fit::terminal_of(z.m, mean_unit(z.n), x, means, means)))
}

pub fn shifted(z: Sizes, x: &[i64; 11], y: &[i64; 220], means: &[i64; 11]) -> Ground
    requires { Meant z x.now y.now means.now }
    ensures { GroundDue index.Shifted (lent z x.now y.now) result }
{
    Ground::Line(own(fit::shifted_of(z.m, mean_unit(z.n), x, means, means)))
}

// The independent line, which three indices share.
pub fn independent_line(z: Sizes, x: &[i64; 11], y: &[i64; 220], means: &[i64; 11]) -> Plotted
    requires { Meant z x.now y.now means.now }
    ensures { PlotDue (BestDue (T.means (lent z x.now y.now))) result }
{
    fit::best_of(z.m, mean_unit(z.n), x, means, means)
}

pub fn independent(z: Sizes, x: &[i64; 11], y: &[i64; 220], line: Plotted) -> Ground
    requires { ((verdict (lent z x.now y.now)).number ≡ 0) × PlotDue (BestDue (T.means (lent z x.now y.now))) line }
    ensures { GroundDue index.Independent (lent z x.now y.now) result }
{
    on_plot(line)
}

// Whether an input is negative: inputs rise, so the first one tells.
fn has_negative(x: &[i64; 11]) -> bool
    ensures { result ≡ lt_z (get_or x.now 0 (pos 0)) (pos 0) }
{
    input_at(x, 0) < Input { count: 0 }
}

// Through the origin, where no input is negative.
pub fn zero(z: Sizes, x: &[i64; 11], y: &[i64; 220], means: &[i64; 11]) -> Ground
    requires { Meant z x.now y.now means.now }
    ensures { GroundDue index.Zero (lent z x.now y.now) result }
{
    if has_negative(x) {
        return Ground::Refused(15);
    }
    on_plot(pin::zero_of(z.m, mean_unit(z.n), x, means, means))
}

pub fn front(z: Sizes, x: &[i64; 11], y: &[i64; 220], means: &[i64; 11]) -> Ground
    requires { Meant z x.now y.now means.now }
    ensures { GroundDue index.Front (lent z x.now y.now) result }
{
    on_plot(pin::front_of(z.m, mean_unit(z.n), x, means, means))
}

// ---- A width that is no line's, with the independent line.
fn on_width(p: Plotted, w: Sum, n: usize) -> Ground
    requires { Narrow p × (nat_abs w.count ≤ 20000000) × (n ≤ 10) }
    ensures { Widened p w.count n result }
{
    match p {
        Plotted::Line(c) => Ground::Line(Based {
            a: c.a,
            b: c.b,
            q: c.q,
            num: units::over_denominator(w, c.q),
            unit: n as u64,
        }),
        Plotted::Several(h) => Ground::Several(h),
    }
}

// Of the sums or the limits of the up stroke and of the last one.
fn wide(
    w: Width,
    z: Sizes,
    x: &[i64; 11],
    y: &[i64; 220],
    line: Plotted,
    up: &[i64; 11],
    down: &[i64; 11],
) -> Ground
    requires { Answered (wide_index w) (lent z x.now y.now) × PlotDue (BestDue (T.means (lent z x.now y.now))) line × Sides w (lent z x.now y.now) up.now down.now }
    ensures { GroundDue (wide_index w) (lent z x.now y.now) result }
{
    on_width(line, widest(w, z.m, up, down), z.n)
}

// Scatter cannot be told of one cycle, and what needs the way down cannot be told of an up stroke alone.
fn is_alone(n: usize) -> bool
    ensures { result ≡ eqb n 1 }
{
    n == 1
}

pub fn hysteresis(
    z: Sizes,
    x: &[i64; 11],
    y: &[i64; 220],
    line: Plotted,
    up: &[i64; 11],
    down: &[i64; 11],
) -> Ground
    requires { ((verdict (lent z x.now y.now)).number ≡ 0) × PlotDue (BestDue (T.means (lent z x.now y.now))) line × Sides Width.Swing (lent z x.now y.now) up.now down.now }
    ensures { GroundDue index.Hysteresis (lent z x.now y.now) result }
{
    if is_alone(z.strokes) {
        return Ground::Refused(UP_ONLY);
    }
    wide(Width::Swing, z, x, y, line, up, down)
}

// The larger limit of a point's two strokes.
pub fn repeatability(
    z: Sizes,
    x: &[i64; 11],
    y: &[i64; 220],
    line: Plotted,
    up_limits: &[i64; 11],
    down_limits: &[i64; 11],
) -> Ground
    requires { ((verdict (lent z x.now y.now)).number ≡ 0) × PlotDue (BestDue (T.means (lent z x.now y.now))) line × BothLimits (group z.n y.now) (z.strokes - 1) z.m up_limits.now down_limits.now }
    ensures { GroundDue index.Repeatability (lent z x.now y.now) result }
{
    if is_alone(z.strokes) {
        return Ground::Refused(UP_ONLY);
    }
    if is_alone(z.n) {
        return Ground::Refused(13);
    }
    wide(Width::Scatter, z, x, y, line, up_limits, down_limits)
}

// ---- The best line past two values at each point: U less its limit and D more its limit.
fn paired(
    m: usize,
    n: usize,
    x: &[i64; 11],
    up: &[i64; 11],
    down: &[i64; 11],
    up_limits: &[i64; 11],
    down_limits: &[i64; 11],
) -> Plotted
    requires admitted { Admitted (pairs m n x.now up.now down.now up_limits.now down_limits.now) }
    requires addable { Addable m up.now × Addable m down.now × Addable m up_limits.now × Addable m down_limits.now }
    ensures { PlotDue (BestDue (pairs m n x.now up.now down.now up_limits.now down_limits.now)) result }
{
    let mut low = [0; 11];
    let mut high = [0; 11];
    pairs_of(m, up, down, up_limits, down_limits, &mut low, &mut high);
    fit::best_of(m, n as u64, x, &low, &high)
}

// For LH the limits are zero.
pub fn lh(z: Sizes, x: &[i64; 11], y: &[i64; 220], up: &[i64; 11], down: &[i64; 11]) -> Ground
    requires { ((verdict (lent z x.now y.now)).number ≡ 0) × Sides Width.Swing (lent z x.now y.now) up.now down.now }
    ensures { GroundDue index.Lh (lent z x.now y.now) result }
{
    if is_alone(z.strokes) {
        return Ground::Refused(UP_ONLY);
    }
    let none = [0; 11];
    on_plot(paired(z.m, z.n, x, up, down, &none, &none))
}

pub fn lhr(
    z: Sizes,
    x: &[i64; 11],
    y: &[i64; 220],
    up: &[i64; 11],
    down: &[i64; 11],
    up_limits: &[i64; 11],
    down_limits: &[i64; 11],
) -> Ground
    requires { ((verdict (lent z x.now y.now)).number ≡ 0) × Sides Width.Swing (lent z x.now y.now) up.now down.now × BothLimits (group z.n y.now) (z.strokes - 1) z.m up_limits.now down_limits.now }
    ensures { GroundDue index.Lhr (lent z x.now y.now) result }
{
    if is_alone(z.strokes) {
        return Ground::Refused(UP_ONLY);
    }
    if is_alone(z.n) {
        return Ground::Refused(13);
    }
    on_plot(paired(z.m, z.n, x, up, down, up_limits, down_limits))
}
