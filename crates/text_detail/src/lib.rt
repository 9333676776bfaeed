// What more is told of a refused text.
#![tactic(auto)]

ghost use Rattle.std.specs.Prelude.{[], ◌≡◌, ◌-◌, ◌<◌, ◌≤◌, length};
ghost use Rattle.table.specs.Table.{given_at, given};
ghost use Rattle.words.specs.Words.{words};
ghost use Rattle.detail.specs.Marks.{Marked};
ghost use Rattle.text.specs.Text as S;
ghost use Rattle.text.specs.Text.{heard, text_refusals};
ghost use Rattle.text_detail.specs.TextDetail as T;
ghost use Rattle.text_detail.specs.TextDetail.{text_detail};
ghost use Rattle.text_detail.specs.Lines.{items, SaidMarked, LineOf, told_apart, FairlyOpened, Scattered, ScatteredBy};

use detail::Detail;
use record::Record;
use spoken::Said;
use typed_text::survey;

// ---- where each record of a text stands
fn mark_said(labels: &mut [usize; 231], y: &mut [i64; 220], h: Said, line: usize)
    requires { 0 < line }
    ensures { SaidMarked h line labels.old y.old labels.new y.new }
{
    if let Said::Item { record } = h {
        detail::mark(labels, y, record, line);
    }
}

fn mark_lines(text: &[u8], labels: &mut [usize; 231], y: &mut [i64; 220])
    requires { Marked [] labels.old y.old }
    ensures { Marked (items 1 (heard text.now)) labels.new y.new }
{
    let mut k = 0;
    let mut at = 0;
    // from line to line: no `for` goes by steps of unlike lengths
    while at < text.len() {
        let end = words::line_end(text, at);
        k += 1;
        mark_said(labels, y, spoken::hear(&text[at..end]), k);
        at = end + 1;
    }
}

// ---- by number
// The word of a line that is not understood.
fn odd(line: &[u8]) -> Detail
    ensures { result ≡ T.odd (words line.now) }
{
    let k = spoken::odd_word(line);
    if k < words::count(line) {
        Detail::Word { k: k + 1 }
    } else {
        Detail::NoWord { k: k + 1 }
    }
}

// The first line at the place of a record.
fn line_of(text: &[u8], r: Record) -> usize
    ensures { LineOf (heard text.now) r result }
{
    let mut labels = [0; 231];
    let mut y = [0; 220];
    mark_lines(text, &mut labels, &mut y);
    detail::label_of(&labels, r)
}

// The line that told first what a record tells once more.
fn earlier(text: &[u8], r: Record) -> Detail
    requires { length text.now ≤ 65536 }
    ensures { result ≡ T.told_before (heard text.now) (Said.Item r) }
{
    match r {
        Record::Opening { .. } => Detail::Earlier {
            label: survey::look_over(text).opening,
        },
        Record::Point { .. } | Record::Value { .. } => Detail::Earlier {
            label: line_of(text, r),
        },
        Record::Close => Detail::Nothing,
    }
}

fn told_before(text: &[u8], h: Said) -> Detail
    requires { length text.now ≤ 65536 }
    ensures { result ≡ T.told_before (heard text.now) h }
{
    match h {
        Said::Item { record } => earlier(text, record),
        _ => Detail::Nothing,
    }
}

// The first place that is missing.
fn lacks(text: &[u8]) -> Detail
    requires { (length text.now ≤ 65536) × FairlyOpened (heard text.now) }
    ensures { result ≡ T.lacks (S.text (heard text.now)) }
{
    let t = survey::look_over(text);
    let mut labels = [0; 231];
    let mut y = [0; 220];
    mark_lines(text, &mut labels, &mut y);
    let z = t.sizes;
    detail::missing(z, &labels)
}

// The two lines of readings at point i that lie apart.
fn apart_at(text: &[u8], i: usize) -> Detail
    requires { (length text.now ≤ 65536) × Scattered (heard text.now) i }
    ensures { result ≡ told_apart (heard text.now) i }
{
    let t = survey::look_over(text);
    let mut labels = [0; 231];
    let mut y = [0; 220];
    mark_lines(text, &mut labels, &mut y);
    let z = t.sizes;
    detail::apart(z.n, z.strokes, &labels, &y, i)
}

fn lies_apart(text: &[u8], h: Said) -> Detail
    requires { (length text.now ≤ 65536) × ScatteredBy (heard text.now) h }
    ensures { result ≡ T.lies_apart (S.text (heard text.now)) h }
{
    match h {
        Said::Item {
            record: Record::Point { index, .. },
        } => apart_at(text, index),
        _ => Detail::Nothing,
    }
}

// Of a text that is answered with this number and line. The line is looked for only where it is told of: a text that is too long is not walked to its end.
fn by_number(text: &[u8], number: usize, line: usize) -> Detail
    requires { given (text_refusals text.now) ≡ given_at number line }
    ensures { result ≡ T.detail_at text.now (given_at number line) }
{
    match number {
        42 => odd(words::line(text, line.saturating_sub(1))),
        46 => told_before(
            text,
            spoken::hear(words::line(text, line.saturating_sub(1))),
        ),
        47 => lacks(text),
        50 => lies_apart(
            text,
            spoken::hear(words::line(text, line.saturating_sub(1))),
        ),
        _ => Detail::Nothing,
    }
}

fn of_body(text: &[u8]) -> Detail
    ensures { result ≡ T.body_detail text.now }
{
    let mut x = [0; 11];
    let mut y = [0; 220];
    let h = typed_text::hear(text, &mut x, &mut y);
    by_number(text, h.number, h.line)
}

// What more is told of any text; nothing where it is accepted.
pub fn of_text(text: &[u8]) -> Detail
    ensures { result ≡ text_detail text.now }
{
    of_body(words::without_mark(text))
}
