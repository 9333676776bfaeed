// The nine indices of a run.
#![tactic(auto)]

ghost use Rattle.std.specs.Prelude.{◌≡◌, ◌-◌};
ghost use Rattle.exact.specs.Rounding.{Told};
ghost use Rattle.run.specs.Run.{lent, group};
ghost use Rattle.run.specs.Checks.{verdict};
ghost use Rattle.groups.specs.Limit.{BothLimits};
ghost use Rattle.bands.specs.declared.Width.TheVariants as widths;
ghost use Rattle.due.specs.Due.{Due};
ghost use Rattle.due.specs.Ground.{GroundDue};
ghost use Rattle.due.specs.declared.Index.TheVariants as index;
ghost use Rattle.grounds.specs.Basis.{Meant, Sides};
ghost use Rattle.indices.specs.Nine.{NineDue};

use due::{Answer, Ground, Index, Ruled, Shown, shown_of};
use grounds::independent_line;
use groups::both_limits;
use limits::Sizes;
use run::Run;

// ---- One index.
fn repeatability_of(z: Sizes, x: &[i64; 11], y: &[i64; 220], means: &[i64; 11]) -> Ground
    requires { Meant z x.now y.now means.now }
    ensures { GroundDue index.Repeatability (lent z x.now y.now) result }
{
    let m = z.m;
    let n = z.n;
    let last = z.strokes - 1;
    let mut up_limits = [0; 11];
    let mut down_limits = [0; 11];
    both_limits(m, n, last, y, &mut up_limits, &mut down_limits);
    let line = independent_line(z, x, y, means);
    grounds::repeatability(z, x, y, line, &up_limits, &down_limits)
}

fn lhr_of(z: Sizes, x: &[i64; 11], y: &[i64; 220], up: &[i64; 11], down: &[i64; 11]) -> Ground
    requires { ((verdict (lent z x.now y.now)).number ≡ 0) × Sides widths.Swing (lent z x.now y.now) up.now down.now }
    ensures { GroundDue index.Lhr (lent z x.now y.now) result }
{
    let m = z.m;
    let n = z.n;
    let last = z.strokes - 1;
    let mut up_limits = [0; 11];
    let mut down_limits = [0; 11];
    both_limits(m, n, last, y, &mut up_limits, &mut down_limits);
    grounds::lhr(z, x, y, up, down, &up_limits, &down_limits)
}

// What an index stands on, of the sums and means of a run that no check refuses. Limits and lines are worked out only for an index that needs them.
fn ground_in(
    which: Index,
    z: Sizes,
    x: &[i64; 11],
    y: &[i64; 220],
    up: &[i64; 11],
    down: &[i64; 11],
    means: &[i64; 11],
) -> Ground
    requires { Meant z x.now y.now means.now × Sides widths.Swing (lent z x.now y.now) up.now down.now }
    ensures { GroundDue which (lent z x.now y.now) result }
{
    match which {
        Index::Terminal => grounds::terminal(z, x, y, means),
        Index::Shifted => grounds::shifted(z, x, y, means),
        Index::Independent => grounds::independent(z, x, y, independent_line(z, x, y, means)),
        Index::Zero => grounds::zero(z, x, y, means),
        Index::Front => grounds::front(z, x, y, means),
        Index::Hysteresis => grounds::hysteresis(
            z,
            x,
            y,
            independent_line(z, x, y, means),
            up,
            down,
        ),
        Index::Repeatability => repeatability_of(z, x, y, means),
        Index::Lh => grounds::lh(z, x, y, up, down),
        Index::Lhr => lhr_of(z, x, y, up, down),
    }
}

fn ground_of(which: Index, z: Sizes, x: &[i64; 11], y: &[i64; 220]) -> Ground
    requires { (verdict (lent z x.now y.now)).number ≡ 0 }
    ensures { GroundDue which (lent z x.now y.now) result }
{
    let mut up = [0; 11];
    let mut down = [0; 11];
    let mut means = [0; 11];
    grounds::summed(z, x, y, &mut up, &mut down, &mut means);
    ground_in(which, z, x, y, &up, &down, &means)
}

// An index of the run that lent counts stand for.
fn index_over(which: Index, z: Sizes, x: &[i64; 11], y: &[i64; 220]) -> Answer
    ensures due { Due which (lent z x.now y.now) result }
    ensures told { Told result.index }
{
    if let Err(e) = run::check_over(z, x, y) {
        return due::refuse(e.cause.number(), e.place);
    }
    let g = ground_of(which, z, x, y);
    due::answer_of(g, grounds::span_of(z.m, x))
}

// An index of any run. Its counts are taken out once.
pub fn index_of(which: Index, r: Run) -> Answer
    ensures due { Due which r result }
    ensures told { Told result.index }
{
    let m = r.m;
    let n = r.n;
    let strokes = r.strokes;
    let inputs = r.x;
    let readings = r.y;
    let z = Sizes { m, n, strokes };
    let x = run::inputs_of(inputs);
    let y = run::readings_of(readings);
    index_over(which, z, &x, &y)
}

// ---- Every index of a run, as a sheet shows it, and the line of LHR.
#[derive(Clone, Copy)]
pub struct Nine {
    pub terminal: Shown,
    pub shifted: Shown,
    pub independent: Shown,
    pub zero: Shown,
    pub front: Shown,
    pub hysteresis: Shown,
    pub repeatability: Shown,
    pub lh: Shown,
    pub lhr: Shown,
    pub line: Ruled,
}

// Of the sums, means and limits of a run that no check refuses. The independent line is found once.
fn nine_in(
    z: Sizes,
    x: &[i64; 11],
    y: &[i64; 220],
    up: &[i64; 11],
    down: &[i64; 11],
    means: &[i64; 11],
    up_limits: &[i64; 11],
    down_limits: &[i64; 11],
) -> Nine
    requires { Meant z x.now y.now means.now × Sides widths.Swing (lent z x.now y.now) up.now down.now × BothLimits (group z.n y.now) (z.strokes - 1) z.m up_limits.now down_limits.now }
    ensures { NineDue (lent z x.now y.now) result }
{
    let span = grounds::span_of(z.m, x);
    let line = independent_line(z, x, y, means);
    let last = grounds::lhr(z, x, y, up, down, up_limits, down_limits);
    Nine {
        terminal: shown_of(grounds::terminal(z, x, y, means), span),
        shifted: shown_of(grounds::shifted(z, x, y, means), span),
        independent: shown_of(grounds::independent(z, x, y, line), span),
        zero: shown_of(grounds::zero(z, x, y, means), span),
        front: shown_of(grounds::front(z, x, y, means), span),
        hysteresis: shown_of(grounds::hysteresis(z, x, y, line, up, down), span),
        repeatability: shown_of(
            grounds::repeatability(z, x, y, line, up_limits, down_limits),
            span,
        ),
        lh: shown_of(grounds::lh(z, x, y, up, down), span),
        lhr: shown_of(last, span),
        line: due::ruled_of(last),
    }
}

// Sums, means and limits are worked out once for all.
pub fn nine_over(z: Sizes, x: &[i64; 11], y: &[i64; 220]) -> Nine
    requires { (verdict (lent z x.now y.now)).number ≡ 0 }
    ensures { NineDue (lent z x.now y.now) result }
{
    let m = z.m;
    let n = z.n;
    let last = z.strokes - 1;
    let mut up = [0; 11];
    let mut down = [0; 11];
    let mut means = [0; 11];
    let mut up_limits = [0; 11];
    let mut down_limits = [0; 11];
    grounds::summed(z, x, y, &mut up, &mut down, &mut means);
    both_limits(m, n, last, y, &mut up_limits, &mut down_limits);
    nine_in(z, x, y, &up, &down, &means, &up_limits, &down_limits)
}
