// The sheet of a run file, as bytes.
#![tactic(auto)]

ghost use Rattle.std.specs.Prelude.{[], ◌∷◌, ◌++◌, ◌≡◌, ◌<◌};
ghost use Rattle.plain.specs.Digits.{fraction, percent};
ghost use Rattle.plain.specs.Plain.{space, refused_line, as_printed, printed, buffer_after, kept};
ghost use Rattle.sheet_text.specs.Sheet.{name, head_line, SheetDue, PrintDue};
ghost use Rattle.run.specs.Run.{lent};
ghost use Rattle.run.specs.Checks.{verdict};
ghost use Rattle.sheet_text.specs.Grown.{shown_line, ruled_line, RunText};

use due::{Index, Ruled, Shown};
use limits::Sizes;
use plain::{Page, TooShort};

fn put_name(page: &mut Page, which: Index)
    ensures { page.new ≡ kept (page.old ++ name which) }
{
    match which {
        Index::Terminal => page.put_bytes(b"terminal"),
        Index::Shifted => page.put_bytes(b"shifted"),
        Index::Independent => page.put_bytes(b"independent"),
        Index::Zero => page.put_bytes(b"zero"),
        Index::Front => page.put_bytes(b"front"),
        Index::Hysteresis => page.put_bytes(b"hysteresis"),
        Index::Repeatability => page.put_bytes(b"repeatability"),
        Index::Lh => page.put_bytes(b"lh"),
        Index::Lhr => page.put_bytes(b"lhr"),
    }
}

// The index and the percent.
#[tactic(auto, using(plain::specs::KeptLaws::kept_twice))]
fn put_figures(page: &mut Page, s: Shown)
    ensures { page.new ≡ kept (page.old ++ (fraction s.index ++ (space ∷ percent s.thousandths))) }
{
    page.put_fraction(s.index);
    page.put_byte(b' ');
    page.put_percent(s.thousandths);
}

#[tactic(auto, using(plain::specs::KeptLaws::kept_twice, crate::specs::SheetLaws::told_figures, crate::specs::SheetLaws::told_refused))]
fn put_index(page: &mut Page, which: Index, s: Shown)
    ensures { page.new ≡ kept (page.old ++ shown_line which s) }
{
    put_name(page, which);
    page.put_byte(b' ');
    if s.number == 0 {
        put_figures(page, s);
    } else {
        page.put_number(s.number);
    }
    page.put_byte(b'\n');
}

// The slope and the offset.
#[tactic(auto, using(plain::specs::KeptLaws::kept_twice))]
fn put_line(page: &mut Page, l: Ruled)
    ensures { page.new ≡ kept (page.old ++ (fraction l.slope ++ (space ∷ fraction l.offset))) }
{
    page.put_fraction(l.slope);
    page.put_byte(b' ');
    page.put_fraction(l.offset);
}

#[tactic(auto, using(plain::specs::KeptLaws::kept_twice, crate::specs::SheetLaws::told_figures, crate::specs::SheetLaws::told_refused))]
fn put_last(page: &mut Page, number: u8, l: Ruled)
    ensures { page.new ≡ kept (page.old ++ ruled_line number l) }
{
    page.put_bytes(b"line ");
    if number == 0 {
        put_line(page, l);
    } else {
        page.put_number(number);
    }
    page.put_byte(b'\n');
}

#[tactic(auto, using(plain::specs::KeptLaws::kept_twice))]
fn put_head(page: &mut Page, m: usize, n: usize)
    ensures { page.new ≡ kept (page.old ++ head_line m n) }
{
    page.put_bytes(b"points ");
    page.put_decimal(m as u64);
    page.put_bytes(b" cycles ");
    page.put_decimal(n as u64);
    page.put_byte(b'\n');
}

// The eleven lines of a run that no check refuses.
fn put_run(page: &mut Page, z: Sizes, x: &[i64; 11], y: &[i64; 220])
    requires { (verdict (lent z x.now y.now)).number ≡ 0 }
    ensures { RunText (lent z x.now y.now) page.old page.new }
{
    let q = indices::nine_over(z, x, y);
    put_head(page, z.m, z.n);
    put_index(page, Index::Terminal, q.terminal);
    put_index(page, Index::Shifted, q.shifted);
    put_index(page, Index::Independent, q.independent);
    put_index(page, Index::Zero, q.zero);
    put_index(page, Index::Front, q.front);
    put_index(page, Index::Hysteresis, q.hysteresis);
    put_index(page, Index::Repeatability, q.repeatability);
    put_index(page, Index::Lh, q.lh);
    let last = q.lhr;
    put_index(page, Index::Lhr, last);
    put_last(page, last.number, q.line);
}

// The sheet of any byte string: a run that was read needs no second check.
fn put_file(page: &mut Page, file: &[u8])
    requires { page.old ≡ [] }
    ensures { SheetDue file.now page.new }
{
    let mut x = [0; 11];
    let mut y = [0; 220];
    let t = reader::read_into(file, &mut x, &mut y);
    if t.number != 0 {
        page.put_refused(t.number, t.place);
    } else {
        put_run(page, t.sizes, &x, &y);
    }
}

// The line of a file that is refused at its opening, at place 0 by a number of one digit: of 15 bytes, so that such a file waits for no larger array.
fn print_unopened(number: usize, out: &mut [u8]) -> Result<usize, TooShort>
    requires { number < 10 }
    ensures answer { as_printed result ≡ printed (refused_line number 0) out.old }
    ensures after { out.new ≡ buffer_after (refused_line number 0) out.old }
{
    let mut line = *b"refused 0 at 0\n";
    line[8] = 48 + number as u8;
    plain::print(&line[..], out)
}

// The sheet of any byte string, at the front of a lent buffer. The opening is asked first, since most of the time of a short refusal would go into the zeros of the arrays.
pub fn sheet(file: &[u8], out: &mut [u8]) -> Result<usize, TooShort>
    ensures { PrintDue file.now out.old out.new (as_printed result) }
{
    let t = reader::opening(file);
    if t.number != 0 {
        return print_unopened(t.number, out);
    }
    let mut page = Page::new();
    put_file(&mut page, file);
    plain::print(page.bytes(), out)
}
