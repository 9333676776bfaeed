// The independent line alone, for the benchmark:
// void wheattunic_line(size_t m, uint64_t d, const int64_t x[11], const int64_t v[11], int64_t above[3], uint64_t below[3]).
#![tactic(auto)]

ghost use Rattle.std.specs.Prelude.{◌≡◌};
ghost use Rattle.band.specs.Band.{lent};
ghost use Rattle.line_for_c.specs.Line.{Handed, numerators, denominators};

use fit::{Drawn, Fit};

// Width, slope and offset: what stands above and below the stroke of each fraction.
fn put_line(f: Fit, above: &mut [i64; 3], below: &mut [u64; 3])
    ensures above { above.new ≡ numerators f }
    ensures below { below.new ≡ denominators f }
{
    let width = f.width;
    let slope = f.slope;
    let offset = f.offset;
    *above = [width.num, slope.num, offset.num];
    *below = [width.den, slope.den, offset.den];
}

// The line past one value at each input whose largest deviation is least; where the points are not admitted nothing is written.
#[unsafe(no_mangle)]
pub extern "C" fn wheattunic_line(
    m: usize,
    d: u64,
    x: &[i64; 11],
    v: &[i64; 11],
    above: &mut [i64; 3],
    below: &mut [u64; 3],
)
    ensures { Handed (lent m d x.now v.now v.now) above.old above.new below.old below.new }
{
    match fit::best(m, d, x, v, v) {
        Drawn::Line(f) => put_line(f, above, below),
        Drawn::Several(_) => {}
        Drawn::Improper => {}
    }
}
