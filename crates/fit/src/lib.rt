// Lines through points: the terminal line, the shifted terminal line, and the line of least largest deviation.
#![tactic(auto)]

ghost use Rattle.std.specs.Prelude.{◌∷◌, [], ◌≡◌, ◌<◌, ◌≤◌, pos, nat_abs, ◌+ℤ◌, ◌-ℤ◌, ◌*ℤ◌, get_or};
ghost use Rattle.whole.specs.Greater.{smaller, greater};
ghost use Rattle.whole.specs.Machine.{Bounds};
ghost use Rattle.band.specs.Line.{OneValue};
ghost use Rattle.band.specs.Band.{lent, most_x, most_v, most_d, Admitted};
ghost use Rattle.search.specs.Over.{Greatest};
ghost use Rattle.fit.specs.Answer.{BestDue, TheTerminal, TerminalDue, TheShifted, ShiftedDue};
ghost use Rattle.fit.specs.Plot.{Tells, TellsWidth, Completes, CourseDue, PlotDue};
ghost use Rattle.fit.specs.Parts.{Whole, CourseParts, Over, Chosen, OverHigh, OverLow, PairParts, ReachParts};
ghost use Rattle.fit.specs.Ends.{most_a, most_b, most_gap, most_e, Through, EndsOf, Wider, Ranged, Ready};

use exact::Fraction;
use search::{Candidate, Top};
use units::{gap, input_at, part_at, rise, times};

// The line (a·x + b)/q and its width w/q, as whole numbers over one denominator. The index of a line is made of w and a.
#[derive(Clone, Copy)]
pub struct Course {
    pub a: i64,
    pub b: i64,
    pub q: u64,
    pub w: i64,
}

// The width w/q alone.
#[derive(Clone, Copy)]
pub struct Reach {
    pub w: i64,
    pub q: u64,
}

// What is found: a line; or only its width, where several lines reach it. Neither is an error, so it is no Result.
#[derive(Clone, Copy)]
pub enum Plotted {
    Line(Course),
    Several(Reach),
}

// A line and its width, with the three fractions in lowest terms.
#[derive(Clone, Copy)]
pub struct Fit {
    pub a: i64,
    pub b: i64,
    pub q: u64,
    pub w: i64,
    pub width: Fraction,
    pub slope: Fraction,
    pub offset: Fraction,
}

// The width alone, with its fraction.
#[derive(Clone, Copy)]
pub struct Wide {
    pub w: i64,
    pub q: u64,
    pub width: Fraction,
}

// A line; or only its width; or nothing, where the points are not admitted. `promises` states of each case what it is in the table (`Enums`).
#[derive(Clone, Copy)]
pub enum Drawn {
    Line(Fit),
    Several(Wide),
    Improper,
}

// The line (a·x + b)/(s·d) through two points.
#[derive(Clone, Copy)]
struct Ends {
    a: i64,
    b: i64,
    s: i64,
}

// The smallest and the largest deviation.
#[derive(Clone, Copy)]
struct Spread {
    lo: i64,
    hi: i64,
}

// Whole numbers over a positive denominator.
pub fn lay(a: i64, b: i64, q: i64, w: i64) -> Course
    requires { Whole a b q w }
    ensures { CourseParts result a b q w }
{
    Course {
        a,
        b,
        q: q as u64,
        w,
    }
}

// ---- Fractions are made last, and only where they are asked for.
impl From<Course> for Fit {
    ghost from_gives = { Tells };

    fn from(c: Course) -> Fit {
        Fit {
            a: c.a,
            b: c.b,
            q: c.q,
            w: c.w,
            width: exact::lowest(c.w, c.q),
            slope: exact::lowest(c.a, c.q),
            offset: exact::lowest(c.b, c.q),
        }
    }
}

impl From<Reach> for Wide {
    ghost from_gives = { TellsWidth };

    fn from(h: Reach) -> Wide {
        Wide {
            w: h.w,
            q: h.q,
            width: exact::lowest(h.w, h.q),
        }
    }
}

pub fn complete(p: Plotted) -> Drawn
    ensures { Completes p result }
{
    match p {
        Plotted::Line(c) => Drawn::Line(Fit::from(c)),
        Plotted::Several(h) => Drawn::Several(Wide::from(h)),
    }
}

// The line through the values v at i and at k.
fn through(x: &[i64; 11], v: &[i64; 11], i: usize, k: usize) -> Ends
    requires bounds { Bounds (get_or x.now i (pos 0) ∷ get_or x.now k (pos 0) ∷ get_or v.now i (pos 0) ∷ get_or v.now k (pos 0) ∷ []) (most_x ∷ most_x ∷ most_v ∷ most_v ∷ []) }
    requires i_bound { (i < 11) × (k < 11) }
    ensures { Through (get_or x.now i (pos 0)) (get_or x.now k (pos 0)) (get_or v.now i (pos 0)) (get_or v.now k (pos 0)) result }
{
    let p = input_at(x, i);
    let q = input_at(x, k);
    let a = part_at(v, i);
    let c = part_at(v, k);
    Ends {
        a: rise(a, c),
        b: times(q, a) - times(p, c),
        s: gap(p, q),
    }
}

// How far a value is above the line, times s, where it lies `lift` above the line's first value, and its input `run` beyond that one's.
fn height(e: Ends, run: i64, lift: i64) -> i64
    requires { Bounds (e.a ∷ e.s ∷ run ∷ lift ∷ []) (most_a ∷ most_gap ∷ most_gap ∷ most_a ∷ []) }
    ensures { result ≡ e.s *ℤ lift -ℤ e.a *ℤ run }
{
    let a = e.a;
    let s = e.s;
    s * lift - a * run
}

// The height h taken in.
fn wider(r: Spread, h: i64) -> Spread
    ensures { Wider r h result }
{
    Spread {
        lo: r.lo.min(h),
        hi: r.hi.max(h),
    }
}

// The smallest and the largest height; the first is zero.
fn spread_of(m: usize, d: u64, x: &[i64; 11], low: &[i64; 11], high: &[i64; 11], e: Ends) -> Spread
    requires { Admitted (lent m d x.now low.now high.now) × EndsOf (lent m d x.now low.now high.now) e }
    ensures { Ranged (lent m d x.now low.now high.now) e m result }
{
    let p = input_at(x, 0);
    let v = part_at(low, 0);
    let mut r = Spread { lo: 0, hi: 0 };
    for i in 0..m {
        r = wider(
            r,
            height(e, gap(p, input_at(x, i)), rise(v, part_at(low, i))),
        );
    }
    r
}

// The terminal line, with the larger of the two deviations.
fn plain(e: Ends, r: Spread, d: u64) -> Course
    requires { Ready e r d }
    ensures { CourseParts result e.a e.b (e.s *ℤ pos d) (greater r.hi (pos 0 -ℤ r.lo)) }
{
    let s = e.s;
    let lo = r.lo;
    lay(e.a, e.b, s * (d as i64), r.hi.max(0 - lo))
}

// The terminal line, moved by half the sum of the two deviations.
fn centred(e: Ends, r: Spread, d: u64) -> Course
    requires { Ready e r d }
    ensures { CourseParts result (pos 2 *ℤ e.a) (pos 2 *ℤ e.b +ℤ (r.lo +ℤ r.hi)) (pos 2 *ℤ e.s *ℤ pos d) (r.hi -ℤ r.lo) }
{
    let a = e.a;
    let b = e.b;
    let s = e.s;
    let lo = r.lo;
    let hi = r.hi;
    lay(2 * a, 2 * b + (lo + hi), 2 * s * (d as i64), hi - lo)
}

// The line e, moved down by half of s, with the width w.
fn chord(e: Ends, s: i64, w: i64, d: u64) -> Course
    requires bounds { Bounds (e.a ∷ e.b ∷ e.s ∷ s ∷ w ∷ pos d ∷ []) (most_a ∷ most_b ∷ most_gap ∷ most_e ∷ most_e ∷ most_d ∷ []) }
    requires over { Over e.s w d }
    ensures { CourseParts result (pos 2 *ℤ e.a) (pos 2 *ℤ e.b -ℤ s) (pos 2 *ℤ e.s *ℤ pos d) w }
{
    let a = e.a;
    let b = e.b;
    let span = e.s;
    lay(2 * a, 2 * b - s, 2 * span * (d as i64), w)
}

// The line midway between the lines e and h over one gap of inputs, with the width w.
fn midway(e: Ends, h: Ends, w: i64, d: u64) -> Course
    requires bounds { Bounds (e.a ∷ e.b ∷ e.s ∷ h.a ∷ h.b ∷ w ∷ pos d ∷ []) (most_a ∷ most_b ∷ most_gap ∷ most_a ∷ most_b ∷ most_a ∷ most_d ∷ []) }
    requires over { Over e.s w d }
    ensures { CourseParts result (e.a +ℤ h.a) (e.b +ℤ h.b) (pos 2 *ℤ e.s *ℤ pos d) (w *ℤ e.s) }
{
    let a = e.a;
    let b = e.b;
    let s = e.s;
    let u = h.a;
    let v = h.b;
    lay(a + u, b + v, 2 * s * (d as i64), w * s)
}

// The line through the middles at i and j, where the gap of the values is the same.
fn middles(
    m: usize,
    d: u64,
    x: &[i64; 11],
    low: &[i64; 11],
    high: &[i64; 11],
    i: usize,
    j: usize,
) -> Course
    requires { Admitted (lent m d x.now low.now high.now) × (i < j) × (j < m) }
    ensures { PairParts (lent m d x.now low.now high.now) i j (CourseParts result) }
{
    midway(
        through(x, low, i, j),
        through(x, high, i, j),
        rise(part_at(low, i), part_at(high, i)),
        d,
    )
}

// The width w/(2d) alone.
pub fn only(w: i64, d: u64) -> Reach
    requires { (nat_abs w ≤ most_e) × (d ≤ most_d) }
    ensures { ReachParts w d result }
{
    Reach { w, q: 2 * d }
}

// An input that no chord reaches: one line, where another input has its gap.
fn single(
    m: usize,
    d: u64,
    x: &[i64; 11],
    low: &[i64; 11],
    high: &[i64; 11],
    top: Top,
    i: usize,
) -> Plotted
    requires { Admitted (lent m d x.now low.now high.now) × Greatest (lent m d x.now low.now high.now) top × (top.which ≡ Candidate.One i) }
    ensures { PlotDue (BestDue (lent m d x.now low.now high.now)) result }
{
    let j = search::twin(m, d, x, low, high, i);
    if j == m {
        return Plotted::Several(only(top.num, d));
    }
    if i < j {
        Plotted::Line(middles(m, d, x, low, high, i, j))
    } else {
        Plotted::Line(middles(m, d, x, low, high, j, i))
    }
}

// The line of least largest deviation, of points that are known to be admitted.
pub fn best_of(m: usize, d: u64, x: &[i64; 11], low: &[i64; 11], high: &[i64; 11]) -> Plotted
    requires { Admitted (lent m d x.now low.now high.now) }
    ensures { PlotDue (BestDue (lent m d x.now low.now high.now)) result }
{
    let top = search::greatest(m, d, x, low, high);
    let n = top.num;
    match top.which {
        Candidate::One(i) => single(m, d, x, low, high, top, i),
        // The chord over the highest values at i and k, moved half way down to a lowest value between them: n is how far that is, times the gap of i and k.
        Candidate::Up(i, _, k) => Plotted::Line(chord(through(x, high, i, k), n, n, d)),
        // The chord over the lowest values at i and k, moved half way up to a highest value between them.
        Candidate::Down(i, _, k) => Plotted::Line(chord(through(x, low, i, k), 0 - n, n, d)),
    }
}

// The line of least largest deviation.
pub fn best(m: usize, d: u64, x: &[i64; 11], low: &[i64; 11], high: &[i64; 11]) -> Drawn
    ensures { BestDue (lent m d x.now low.now high.now) result }
{
    if !band::is_admitted(m, d, x, low, high) {
        return Drawn::Improper;
    }
    complete(best_of(m, d, x, low, high))
}

// The terminal line, through the first and the last point, of points that are known to be admitted, with one value at each input. It and the shifted one stay two functions each: one that is handed the last step would be longer, for it needs the contract of what it is handed.
pub fn terminal_of(m: usize, d: u64, x: &[i64; 11], low: &[i64; 11], high: &[i64; 11]) -> Course
    requires { Admitted (lent m d x.now low.now high.now) × OneValue (lent m d x.now low.now high.now) }
    ensures { CourseDue (TheTerminal (lent m d x.now low.now high.now)) result }
{
    let e = through(x, low, 0, m - 1);
    let r = spread_of(m, d, x, low, high, e);
    plain(e, r, d)
}

// The terminal line.
pub fn terminal(m: usize, d: u64, x: &[i64; 11], low: &[i64; 11], high: &[i64; 11]) -> Drawn
    ensures { TerminalDue (lent m d x.now low.now high.now) result }
{
    if !band::is_drawn(m, d, x, low, high) {
        return Drawn::Improper;
    }
    Drawn::Line(Fit::from(terminal_of(m, d, x, low, high)))
}

// The shifted terminal line, of points that are known to be admitted, with one value at each input.
pub fn shifted_of(m: usize, d: u64, x: &[i64; 11], low: &[i64; 11], high: &[i64; 11]) -> Course
    requires { Admitted (lent m d x.now low.now high.now) × OneValue (lent m d x.now low.now high.now) }
    ensures { CourseDue (TheShifted (lent m d x.now low.now high.now)) result }
{
    let e = through(x, low, 0, m - 1);
    let r = spread_of(m, d, x, low, high, e);
    centred(e, r, d)
}

// The shifted terminal line.
pub fn shifted(m: usize, d: u64, x: &[i64; 11], low: &[i64; 11], high: &[i64; 11]) -> Drawn
    ensures { ShiftedDue (lent m d x.now low.now high.now) result }
{
    if !band::is_drawn(m, d, x, low, high) {
        return Drawn::Improper;
    }
    Drawn::Line(Fit::from(shifted_of(m, d, x, low, high)))
}
