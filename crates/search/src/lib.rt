// The greatest candidate: of all inputs and all triples of inputs the one that keeps the lines furthest off.
#![tactic(auto)]

ghost use Rattle.std.specs.Prelude.{◌∷◌, [], cond, ◌≡◌, ◌<◌, ◌+◌, ◌+ℤ◌, ◌*ℤ◌};
ghost use Rattle.std.specs.Int.Signed.{lt_z};
ghost use Rattle.whole.specs.Every.{FirstNot};
ghost use Rattle.whole.specs.Machine.{Bounds};
ghost use Rattle.band.specs.Band.{lent, Admitted};
ghost use Rattle.band.specs.Candidate.{num};
ghost use Rattle.search.specs.Search.{shown, taken_over};
ghost use Rattle.search.specs.Sided.{chord_on, sided};
ghost use Rattle.search.specs.Over.{Greatest, Holds, Told, Singles, HighestChord, Middles, Ends};
ghost use Rattle.search.specs.Twin.{apart};

use units::{gap, input_at, part_at, rise};

// The highest above the lowest value at one input; a chord over the highest values at the outer two of three inputs, above the lowest at the middle one; or the highest value there above a chord over the lowest.
#[derive(Clone, Copy)]
pub enum Candidate {
    One(usize),
    Up(usize, usize, usize),
    Down(usize, usize, usize),
}

// A candidate and its fraction.
#[derive(Clone, Copy)]
pub struct Top {
    pub which: Candidate,
    pub num: i64,
    pub den: i64,
}

// The side of the chord over the outer values that is meant: above the inner value, or beneath it.
#[derive(Clone, Copy)]
enum Side {
    Above,
    Beneath,
}

// The middle of a chord from i to k, and what stands above its fraction's stroke: all that differs between them, and two words stay in registers.
#[derive(Clone, Copy)]
struct Middle {
    j: usize,
    num: i64,
}

// How far a chord lies off a value at a middle input, times its own gap: at the first input it lies off by the one, and climbs towards the last by the other.
fn bend(span: i64, left: i64, off: i64, climb: i64) -> i64
    requires { Bounds (span ∷ left ∷ off ∷ climb ∷ []) (60000 ∷ 60000 ∷ 206000000 ∷ 206000000 ∷ []) }
    ensures { result ≡ span *ℤ off +ℤ left *ℤ climb }
{
    span * off + left * climb
}

// The highest above the lowest value at i.
fn alone(m: usize, d: u64, x: &[i64; 11], low: &[i64; 11], high: &[i64; 11], i: usize) -> Top
    requires { Admitted (lent m d x.now low.now high.now) × (i < m) }
    ensures { Told (lent m d x.now low.now high.now) (Candidate.One i) result }
{
    Top {
        which: Candidate::One(i),
        num: rise(part_at(low, i), part_at(high, i)),
        den: 1,
    }
}

// How far the chord over the outer values at i and k lies above or beneath the inner value at j, times the gap of i and k.
fn off_chord(
    m: usize,
    d: u64,
    x: &[i64; 11],
    outer: &[i64; 11],
    inner: &[i64; 11],
    side: Side,
    i: usize,
    j: usize,
    k: usize,
) -> i64
    requires { Admitted (sided side m d x.now outer.now inner.now) × (i < j) × (j < k) × (k < m) }
    ensures { result ≡ num (sided side m d x.now outer.now inner.now) (shown (chord_on side i j k)) }
{
    let a = input_at(x, i);
    let b = input_at(x, j);
    let c = input_at(x, k);
    let u = part_at(outer, i);
    let v = part_at(inner, j);
    let w = part_at(outer, k);
    let n = bend(gap(a, c), gap(a, b), rise(v, u), rise(u, w));
    match side {
        Side::Above => n,
        Side::Beneath => 0 - n,
    }
}

// A new candidate takes the old one's place where its fraction is more, by cross products; a chord takes it also where it is no more, so that a single input stays only where no chord reaches it.
fn takes(old: Top, new: Top) -> bool
    requires { Bounds (old.num ∷ old.den ∷ new.num ∷ new.den ∷ []) (18540000000000 ∷ 60000 ∷ 18540000000000 ∷ 60000 ∷ []) }
    ensures { result ≡ taken_over old.num old.den new.num new.den new.which }
{
    let a = old.num * new.den;
    let b = new.num * old.den;
    match new.which {
        Candidate::One(_) => a < b,
        Candidate::Up(..) | Candidate::Down(..) => a <= b,
    }
}

// The new candidate or the old one.
fn with(old: Top, new: Top) -> Top
    requires { Bounds (old.num ∷ old.den ∷ new.num ∷ new.den ∷ []) (18540000000000 ∷ 60000 ∷ 18540000000000 ∷ 60000 ∷ []) }
    ensures { result ≡ cond (taken_over old.num old.den new.num new.den new.which) new old }
{
    if takes(old, new) { new } else { old }
}

// The middle with the larger numerator.
fn with_middle(old: Middle, j: usize, num: i64) -> Middle
    requires { Bounds (old.num ∷ num ∷ []) (18540000000000 ∷ 18540000000000 ∷ []) }
    ensures { result ≡ cond (lt_z old.num num) (record { j = j; num = num }) old }
{
    if old.num < num {
        Middle { j, num }
    } else {
        old
    }
}

// The single inputs.
fn over_inputs(m: usize, d: u64, x: &[i64; 11], low: &[i64; 11], high: &[i64; 11]) -> Top
    requires { Admitted (lent m d x.now low.now high.now) }
    ensures { Singles (lent m d x.now low.now high.now) m result }
{
    let mut t = alone(m, d, x, low, high, 0);
    for i in 0..m {
        t = with(t, alone(m, d, x, low, high, i));
    }
    t
}

// The chord over i, j and k on a side.
fn chord_of(side: Side, i: usize, j: usize, k: usize) -> Candidate
    ensures { result ≡ chord_on side i j k }
{
    match side {
        Side::Above => Candidate::Up(i, j, k),
        Side::Beneath => Candidate::Down(i, j, k),
    }
}

// The highest chord on one side from i to k: the gap is the same for all, so the numerators alone decide.
fn highest(
    m: usize,
    d: u64,
    x: &[i64; 11],
    outer: &[i64; 11],
    inner: &[i64; 11],
    side: Side,
    i: usize,
    k: usize,
) -> Top
    requires { Admitted (sided side m d x.now outer.now inner.now) × (i + 1 < k) × (k < m) }
    ensures { HighestChord (sided side m d x.now outer.now inner.now) (λ j. chord_on side i j k) i k result }
{
    let mut t = Middle {
        j: i + 1,
        num: off_chord(m, d, x, outer, inner, side, i, i + 1, k),
    };
    for j in i + 2..k {
        t = with_middle(t, j, off_chord(m, d, x, outer, inner, side, i, j, k));
    }
    Top {
        which: chord_of(side, i, t.j, k),
        num: t.num,
        den: gap(input_at(x, i), input_at(x, k)),
    }
}

// The chords from i to k.
fn over_middles(
    m: usize,
    d: u64,
    x: &[i64; 11],
    low: &[i64; 11],
    high: &[i64; 11],
    i: usize,
    k: usize,
    old: Top,
) -> Top
    requires { Admitted (lent m d x.now low.now high.now) × Holds (lent m d x.now low.now high.now) old × (i < k) × (k < m) }
    ensures { Middles (lent m d x.now low.now high.now) old i k k result }
{
    if k == i + 1 {
        return old;
    }
    let t = with(old, highest(m, d, x, high, low, Side::Above, i, k));
    with(t, highest(m, d, x, low, high, Side::Beneath, i, k))
}

// The chords from i.
fn over_ends(
    m: usize,
    d: u64,
    x: &[i64; 11],
    low: &[i64; 11],
    high: &[i64; 11],
    i: usize,
    old: Top,
) -> Top
    requires { Admitted (lent m d x.now low.now high.now) × Holds (lent m d x.now low.now high.now) old × (i < m) }
    ensures { Ends (lent m d x.now low.now high.now) old i m result }
{
    let mut t = old;
    for k in i + 1..m {
        t = over_middles(m, d, x, low, high, i, k, t);
    }
    t
}

// The greatest candidate: all chords, after the single inputs.
pub fn greatest(m: usize, d: u64, x: &[i64; 11], low: &[i64; 11], high: &[i64; 11]) -> Top
    requires { Admitted (lent m d x.now low.now high.now) }
    ensures { Greatest (lent m d x.now low.now high.now) result }
{
    let mut t = over_inputs(m, d, x, low, high);
    for i in 0..m {
        t = over_ends(m, d, x, low, high, i, t);
    }
    t
}

fn differs(
    m: usize,
    d: u64,
    x: &[i64; 11],
    low: &[i64; 11],
    high: &[i64; 11],
    i: usize,
    j: usize,
) -> bool
    requires { Admitted (lent m d x.now low.now high.now) × (i < m) × (j < m) }
    ensures { result ≡ apart (lent m d x.now low.now high.now) i j }
{
    i == j || rise(part_at(low, i), part_at(high, i)) != rise(part_at(low, j), part_at(high, j))
}

// Another input with the same gap as input i: the first, or m where there is none.
pub fn twin(m: usize, d: u64, x: &[i64; 11], low: &[i64; 11], high: &[i64; 11], i: usize) -> usize
    requires { Admitted (lent m d x.now low.now high.now) × (i < m) }
    ensures { FirstNot m (apart (lent m d x.now low.now high.now) i) result }
{
    for j in 0..m {
        if !differs(m, d, x, low, high, i, j) {
            return j;
        }
    }
    m
}
