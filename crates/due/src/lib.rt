// Which answer is due for an index of a run, and how it is told of what the index stands on.
#![tactic(auto)]

ghost use Rattle.std.specs.Prelude.{◌≡◌, ◌*◌, ◌≤◌, nat_abs};
ghost use Rattle.exact.specs.Rounding.{Nearest, Told};
ghost use Rattle.exact.specs.Value.{nought};
ghost use Rattle.due.specs.Due.{refused, only_width};
ghost use Rattle.due.specs.Ground.{LineParts, ShownParts, AnswerParts, Tellable, Ready, LineBy, ShownBy, AnswerBy, hidden};

use exact::Fraction;
use fit::Reach;

#[derive(Clone, Copy)]
pub enum Index {
    Terminal,
    Shifted,
    Independent,
    Zero,
    Front,
    Hysteresis,
    Repeatability,
    Lh,
    Lhr,
}

// A number of the paper's table and its place; the width and the line; the index, as a fraction and in thousandths of one percent.
#[derive(Clone, Copy)]
pub struct Answer {
    pub number: u8,
    pub place: usize,
    pub width: Fraction,
    pub slope: Fraction,
    pub offset: Fraction,
    pub index: Fraction,
    pub thousandths: u64,
}

// What a sheet shows of an answer.
#[derive(Clone, Copy)]
pub struct Shown {
    pub number: u8,
    pub index: Fraction,
    pub thousandths: u64,
}

// The line of an answer.
#[derive(Clone, Copy)]
pub struct Ruled {
    pub slope: Fraction,
    pub offset: Fraction,
}

// The line (a·x + b)/q and the width num/(unit·q), in whole numbers. So the index is num/(unit·|a|·span), with no fraction divided by another.
#[derive(Clone, Copy)]
pub struct Based {
    pub a: i64,
    pub b: i64,
    pub q: u64,
    pub num: i64,
    pub unit: u64,
}

// What an index stands on: a line and a width; a width alone, which several lines reach; or a refusal. Three outcomes of the paper, of which 12 keeps its width: a Result would need a second enum inside.
#[derive(Clone, Copy)]
pub enum Ground {
    Line(Based),
    Several(Reach),
    Refused(u8),
}

// Nothing stands but the number and the place.
pub fn refuse(number: u8, place: usize) -> Answer
    ensures { result ≡ refused number place }
{
    Answer {
        number,
        place,
        width: Fraction::ZERO,
        slope: Fraction::ZERO,
        offset: Fraction::ZERO,
        index: Fraction::ZERO,
        thousandths: 0,
    }
}

// 12: only the width stands.
fn width_alone(f: Fraction) -> Answer
    ensures { result ≡ only_width f }
{
    Answer {
        width: f,
        ..refuse(12, 0)
    }
}

fn percent_of(f: Fraction) -> u64
    requires { Told f }
    ensures { Nearest (100000 * nat_abs f.num) f.den result }
{
    exact::thousandths(f).unwrap_or(0)
}

// ---- What is shown: the one fraction that a sheet has of an index.
// Where the slope is zero the index is 0/1, and the number 11.
fn shown_line(b: Based, span: u64) -> Shown
    requires { Tellable b × (span ≤ 60000) }
    ensures { ShownParts b span result }
{
    let index = exact::lowest(b.num, b.unit * (b.a.unsigned_abs() * span));
    Shown {
        number: if b.a == 0 { 11 } else { 0 },
        index,
        thousandths: percent_of(index),
    }
}

fn hide(number: u8) -> Shown
    ensures { result ≡ hidden number }
{
    Shown {
        number,
        index: Fraction::ZERO,
        thousandths: 0,
    }
}

pub fn shown_of(g: Ground, span: u64) -> Shown
    requires { Ready g × (span ≤ 60000) }
    ensures { ShownBy g span result }
{
    match g {
        Ground::Line(b) => shown_line(b, span),
        Ground::Several(_) => hide(12),
        Ground::Refused(k) => hide(k),
    }
}

// ---- The line.
fn ruled_line(b: Based) -> Ruled
    ensures { LineParts b result }
{
    Ruled {
        slope: exact::lowest(b.a, b.q),
        offset: exact::lowest(b.b, b.q),
    }
}

fn no_line() -> Ruled
    ensures { result ≡ record { slope = nought; offset = nought } }
{
    Ruled {
        slope: Fraction::ZERO,
        offset: Fraction::ZERO,
    }
}

pub fn ruled_of(g: Ground) -> Ruled
    ensures { LineBy g result }
{
    match g {
        Ground::Line(b) => ruled_line(b),
        Ground::Several(_) | Ground::Refused(_) => no_line(),
    }
}

// ---- The whole answer.
fn answer_line(b: Based, span: u64) -> Answer
    requires { Tellable b × (span ≤ 60000) }
    ensures { AnswerParts b span result }
{
    let Shown {
        number,
        index,
        thousandths,
    } = shown_line(b, span);
    let Ruled { slope, offset } = ruled_line(b);
    Answer {
        number,
        place: 0,
        width: exact::lowest(b.num, b.unit * b.q),
        slope,
        offset,
        index,
        thousandths,
    }
}

pub fn answer_of(g: Ground, span: u64) -> Answer
    requires { Ready g × (span ≤ 60000) }
    ensures { AnswerBy g span result }
{
    match g {
        Ground::Line(b) => answer_line(b, span),
        Ground::Several(h) => width_alone(exact::lowest(h.w, h.q)),
        Ground::Refused(k) => refuse(k, 0),
    }
}
