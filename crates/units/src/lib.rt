// The numbers of the bench, kept apart by their types (the paper, "Input units, reading units and sum units"). They are worked with here and, but for comparisons, nowhere else: a stranger can
// see that no number of one kind is ever added to one of another. Outside, a difference is a whole number whose name says what it counts; only the differences of readings that are added up, for Q, have a type.
#![tactic(auto)]

ghost use Rattle.std.specs.Prelude.{◌∷◌, [], ◌≡◌, ◌<◌, ◌≤◌, pos, nat_abs, ◌+ℤ◌, ◌-ℤ◌, ◌*ℤ◌, ◌≤ℤ◌};
ghost use Rattle.whole.specs.Machine.{Bounds};
ghost use Rattle.units.specs.Units.{most_x, most_y, most_difference, most_difference_sum, most_square_sum, most_s, most_v, input_in, reading_in, sum_in, part_in};

// An input x, in input units.
#[derive(Clone, Copy, PartialEq, Eq, PartialOrd, Ord)]
pub struct Input {
    pub count: i64,
}

// A single reading y, in reading units.
#[derive(Clone, Copy, PartialEq, Eq, PartialOrd, Ord)]
pub struct Reading {
    pub count: i64,
}

// A sum over the n cycles of a run, in sum units: one nth of a reading unit.
#[derive(Clone, Copy, PartialEq, Eq, PartialOrd, Ord)]
pub struct Sum {
    pub count: i64,
}

// A reading's difference to another of its group, or such differences added up, in reading units. It is no reading, since it stays as it is where all readings are shifted, and no sum of readings.
#[derive(Clone, Copy, PartialEq, Eq, PartialOrd, Ord)]
pub struct Difference {
    pub count: i64,
}

// The square of a difference, or such squares added up, in squares of a reading unit.
#[derive(Clone, Copy, PartialEq, Eq, PartialOrd, Ord)]
pub struct Square {
    pub count: i64,
}

// A value that lines are drawn past, in parts: one dth of a reading unit. The d is told beside the values: n for sums, 2n for means.
#[derive(Clone, Copy, PartialEq, Eq, PartialOrd, Ord)]
pub struct Part {
    pub count: i64,
}

// ---- Arrays are lent as counts; the name of an array says of what, and here an element gets its type.
pub fn input_at(inputs: &[i64; 11], i: usize) -> Input
    requires { i < 11 }
    ensures { result ≡ input_in inputs.now i }
{
    Input { count: inputs[i] }
}

pub fn reading_at(readings: &[i64; 220], k: usize) -> Reading
    requires { k < 220 }
    ensures { result ≡ reading_in readings.now k }
{
    Reading { count: readings[k] }
}

pub fn sum_at(sums: &[i64; 11], i: usize) -> Sum
    requires { i < 11 }
    ensures { result ≡ sum_in sums.now i }
{
    Sum { count: sums[i] }
}

pub fn part_at(parts: &[i64; 11], i: usize) -> Part
    requires { i < 11 }
    ensures { result ≡ part_in parts.now i }
{
    Part { count: parts[i] }
}

// ---- inputs
// How far b lies beyond a, in input units.
pub fn gap(a: Input, b: Input) -> i64
    requires { Bounds (a.count ∷ b.count ∷ []) (most_x ∷ most_x ∷ []) }
    ensures value { result ≡ b.count -ℤ a.count }
    ensures small { nat_abs result ≤ 60000 }
{
    b.count - a.count
}

// ---- readings
// How far a lies above b, in reading units.
pub fn excess(a: Reading, b: Reading) -> i64
    requires { Bounds (a.count ∷ b.count ∷ []) (most_y ∷ most_y ∷ []) }
    ensures value { result ≡ a.count -ℤ b.count }
    ensures small { nat_abs result ≤ 2000000 }
{
    a.count - b.count
}

// ---- sums
// A reading's nth part: in sum units it has the reading's own count.
impl From<Reading> for Sum {
    ghost from_gives = { λ v s. s.count ≡ v.count };

    fn from(v: Reading) -> Sum {
        Sum { count: v.count }
    }
}

pub fn plus(a: Sum, b: Sum) -> Sum
    requires { Bounds (a.count ∷ b.count ∷ []) (most_s ∷ most_s ∷ []) }
    ensures { result.count ≡ a.count +ℤ b.count }
{
    Sum {
        count: a.count + b.count,
    }
}

pub fn minus(a: Sum, b: Sum) -> Sum
    requires { Bounds (a.count ∷ b.count ∷ []) (most_s ∷ most_s ∷ []) }
    ensures { result.count ≡ a.count -ℤ b.count }
{
    Sum {
        count: a.count - b.count,
    }
}

// How far two sums lie apart.
pub fn distance(a: Sum, b: Sum) -> Sum
    requires { Bounds (a.count ∷ b.count ∷ []) (most_s ∷ most_s ∷ []) }
    ensures { result.count ≡ pos (nat_abs (a.count -ℤ b.count)) }
{
    Sum {
        count: (a.count - b.count).abs(),
    }
}

// A sum over the denominator q: what stands above the stroke then. An index is made of it where its width is no line's.
pub fn over_denominator(s: Sum, q: u64) -> i64
    requires { (nat_abs s.count ≤ 20000000) × (q ≤ 2400000) }
    ensures value { result ≡ s.count *ℤ pos q }
    ensures small { nat_abs result ≤ 48000000000000 }
{
    s.count * (q as i64)
}

// ---- differences
// What a lies above b.
pub fn above(a: Reading, b: Reading) -> Difference
    requires { Bounds (a.count ∷ b.count ∷ []) (most_y ∷ most_y ∷ []) }
    ensures { result.count ≡ a.count -ℤ b.count }
{
    Difference {
        count: excess(a, b),
    }
}

pub fn with_difference(sum: Difference, e: Difference) -> Difference
    requires { Bounds (sum.count ∷ e.count ∷ []) (most_difference_sum ∷ most_difference ∷ []) }
    ensures { result.count ≡ sum.count +ℤ e.count }
{
    Difference {
        count: sum.count + e.count,
    }
}

pub fn with_square(squares: Square, e: Difference) -> Square
    requires { Bounds (squares.count ∷ e.count ∷ []) (most_square_sum ∷ most_difference ∷ []) }
    ensures { result.count ≡ squares.count +ℤ e.count *ℤ e.count }
{
    Square {
        count: squares.count + e.count * e.count,
    }
}

// n times the sum of the squares of n differences, less the square of their sum.
pub fn spread(n: usize, sum: Difference, squares: Square) -> u64
    requires { Bounds (pos n ∷ sum.count ∷ squares.count ∷ []) (10 ∷ most_difference_sum ∷ most_square_sum ∷ []) × (pos 0 ≤ℤ (pos n *ℤ squares.count -ℤ sum.count *ℤ sum.count)) }
    ensures { pos result ≡ pos n *ℤ squares.count -ℤ sum.count *ℤ sum.count }
{
    let n = n as i64;
    (n * squares.count - sum.count * sum.count) as u64
}

// ---- parts
// Where d is n a part is a sum unit.
impl From<Sum> for Part {
    ghost from_gives = { λ s v. v.count ≡ s.count };

    fn from(s: Sum) -> Part {
        Part { count: s.count }
    }
}

// The mean of the up stroke and the last one: where d is 2n, it counts U + D.
pub fn mean_of(up: Sum, down: Sum) -> Part
    requires { Bounds (up.count ∷ down.count ∷ []) (most_s ∷ most_s ∷ []) }
    ensures { result.count ≡ up.count +ℤ down.count }
{
    Part::from(plus(up, down))
}

// How far b lies above a, in parts.
pub fn rise(a: Part, b: Part) -> i64
    requires { Bounds (a.count ∷ b.count ∷ []) (most_v ∷ most_v ∷ []) }
    ensures value { result ≡ b.count -ℤ a.count }
    ensures small { nat_abs result ≤ 206000000 }
{
    b.count - a.count
}

// An input times a part, in units of both: what an offset is made of.
pub fn times(x: Input, v: Part) -> i64
    requires { Bounds (x.count ∷ v.count ∷ []) (most_x ∷ most_v ∷ []) }
    ensures value { result ≡ x.count *ℤ v.count }
    ensures small { nat_abs result ≤ 3090000000000 }
{
    x.count * v.count
}
