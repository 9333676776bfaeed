// Which record the place of a refused run file means, as bytes.
#![tactic(auto)]

ghost use Rattle.std.specs.Prelude.{[], ◌∷◌, ◌++◌, cond, ◌≡◌, ◌<◌, ◌≤◌, ltb};
ghost use Rattle.run.specs.Places.{input_at, reading_at};
ghost use Rattle.plain.specs.Digits.{decimal};
ghost use Rattle.plain.specs.Plain as P;
ghost use Rattle.plain.specs.Plain.{kept};
ghost use Rattle.records.specs.Record.{closes};
ghost use Rattle.record.specs.Kinds.{as_record};
ghost use Rattle.detail.specs.Marks.{Marked};
ghost use Rattle.sentences.specs.Sentences.{record_name, detail_line};
ghost use Rattle.place_text.specs.Place as S;
ghost use Rattle.place_text.specs.Words.{head, led, what_words};
ghost use Rattle.place_text.specs.Walk as W;
ghost use Rattle.place_text.specs.Told.{Means, OfRecord, OfPoint};

use detail::Detail;
use held::record_at;
use limits::Sizes;
use plain::{Page, TooShort};
use record::{Item, Record, Unread};

// ---- the records, numbered
fn is_close(r: Record) -> bool
    ensures { result ≡ closes (as_record r) }
{
    matches!(r, Record::Close)
}

// Where the walk over the records is: the number behind the last record that was counted, and where the next one stands; `more` is 1 while there is one to look at.
#[derive(Clone, Copy)]
struct Step {
    more: usize,
    k: usize,
    at: usize,
}

// A record that is not all there counts as one, if its kind is there.
fn behind(at: usize, len: usize) -> usize
    ensures { result ≡ cond (ltb at len) 1 0 }
{
    if at < len { 1 } else { 0 }
}

// Puts down the number of the record at `at`, and goes behind it.
fn pass(s: &[u8], labels: &mut [usize; 231], y: &mut [i64; 220], k: usize, at: usize) -> Step
    requires { (0 < k) × (k ≤ W.most at) }
    ensures { W.Passed s.now k at labels.old y.old labels.new y.new result }
{
    match record_at(s, at, at == 0) {
        Ok(Item { record, next }) => {
            detail::mark(labels, y, record, k);
            if is_close(record) {
                Step {
                    more: 0,
                    k: k + 1,
                    at: next,
                }
            } else {
                Step {
                    more: 1,
                    k: k + 1,
                    at: next,
                }
            }
        }
        Err(Unread::Cut) => Step {
            more: 0,
            k: k + behind(at, s.len()),
            at,
        },
        Err(Unread::Unknown) => Step {
            more: 0,
            k: k + 1,
            at,
        },
    }
}

// The numbers of the records that stand before an offset, counted from 1, and the counts of the readings among them. Answers the number behind the last of them. A `while`: where the next record stands is told only by the one before it.
fn number_records(s: &[u8], limit: usize, labels: &mut [usize; 231], y: &mut [i64; 220]) -> usize
    requires { Marked [] labels.old y.old }
    ensures { W.Numbered s.now limit labels.new y.new result }
{
    let mut t = Step {
        more: 1,
        k: 1,
        at: 0,
    };
    while t.more > 0 && t.at < limit {
        t = pass(s, labels, y, t.k, t.at);
    }
    t.k
}

// ---- a record in words
#[tactic(auto, using(plain::specs::KeptLaws::kept_twice, std::proofs::lemmas::Grind::common_steps), unfolding(crate::specs::Words::led))]
fn put_opening(page: &mut Page, z: Sizes)
    ensures { page.new ≡ kept (page.old ++ led (S.record_words (as_record (Record.Opening z)))) }
{
    page.put_bytes(b" points ");
    page.put_decimal(z.m as u64);
    page.put_byte(b' ');
    spoken::put_strokes(page, z.strokes);
    page.put_byte(b' ');
    page.put_decimal(z.n as u64);
}

#[tactic(auto, using(plain::specs::KeptLaws::kept_twice, std::proofs::lemmas::Grind::common_steps), unfolding(crate::specs::Words::led))]
fn put_point(page: &mut Page, i: usize)
    ensures { page.new ≡ kept (page.old ++ led (S.place_words (input_at i))) }
{
    page.put_bytes(b" point ");
    page.put_decimal(i as u64);
}

#[tactic(auto, using(plain::specs::KeptLaws::kept_twice, crate::specs::Words::reading_led, crate::specs::Words::stroke_led))]
fn put_reading(page: &mut Page, s: usize, c: usize, i: usize)
    ensures { page.new ≡ kept (page.old ++ led (S.place_words (reading_at s c i))) }
{
    if s < 2 {
        page.put_byte(b' ');
        spoken::put_reading_place(page, s, c, i);
    } else {
        page.put_bytes(b" stroke ");
        page.put_decimal(s as u64);
    }
}

#[tactic(auto, using(plain::specs::KeptLaws::kept_twice, std::proofs::lemmas::Grind::common_steps), unfolding(crate::specs::Words::led))]
fn put_record(page: &mut Page, r: Record)
    ensures { page.new ≡ kept (page.old ++ led (S.record_words (as_record r))) }
{
    match r {
        Record::Opening { sizes } => put_opening(page, sizes),
        Record::Point { index, x: _ } => put_point(page, index),
        Record::Value {
            stroke,
            cycle,
            index,
            y: _,
        } => put_reading(page, stroke, cycle, index),
        Record::Close => page.put_bytes(b" close"),
    }
}

#[tactic(auto, using(plain::specs::KeptLaws::kept_twice, std::proofs::lemmas::Grind::common_steps), unfolding(crate::specs::Words::led))]
fn put_kind(page: &mut Page, kind: u8)
    ensures { page.new ≡ kept (page.old ++ led (S.kind_name ∷ decimal kind ∷ [])) }
{
    page.put_bytes(b" kind ");
    page.put_decimal(kind as u64);
}

// What stands at an offset.
fn put_standing(page: &mut Page, s: &[u8], place: usize)
    ensures { page.new ≡ kept (page.old ++ led (S.words_at s.now place)) }
{
    match record_at(s, place, place == 0) {
        Ok(item) => put_record(page, item.record),
        Err(Unread::Cut) => {
            if s.len() <= place {
                page.put_bytes(b" not there");
            } else {
                page.put_bytes(b" cut short");
            }
        }
        Err(Unread::Unknown) => {
            if place < s.len() {
                put_kind(page, s[place]);
            }
        }
    }
}

#[tactic(auto, using(plain::specs::KeptLaws::kept_twice))]
fn put_head(page: &mut Page, k: usize)
    ensures { page.new ≡ kept (page.old ++ head k) }
{
    page.put_bytes(b"record ");
    page.put_decimal(k as u64);
    page.put_byte(b':');
}

// ---- what more is told
fn first_told(s: &[u8], place: usize, labels: &[usize; 231]) -> Detail
    ensures { W.FirstTold s.now place labels.now result }
{
    let Ok(Item { record, .. }) = record_at(s, place, false) else {
        return Detail::Nothing;
    };
    match record {
        Record::Point { .. } | Record::Value { .. } => Detail::Earlier {
            label: detail::label_of(labels, record),
        },
        Record::Opening { .. } | Record::Close => Detail::Nothing,
    }
}

fn more_at(s: &[u8], number: usize, place: usize, labels: &[usize; 231]) -> Detail
    requires { OfRecord s.now number place labels.now }
    ensures { result ≡ S.detail_of s.now number place }
{
    if number == 6 {
        return first_told(s, place, labels);
    }
    if number == 7 {
        return detail::missing(reader::opening(s).sizes, labels);
    }
    Detail::Nothing
}

fn more_of_point(
    s: &[u8],
    number: usize,
    place: usize,
    labels: &[usize; 231],
    y: &[i64; 220],
) -> Detail
    requires { OfPoint s.now number place labels.now y.now }
    ensures { result ≡ S.detail_of s.now number place }
{
    if number != 10 {
        return Detail::Nothing;
    }
    let z = reader::opening(s).sizes;
    detail::apart(z.n, z.strokes, labels, y, place)
}

// ---- the lines
fn put_what(page: &mut Page, s: &[u8], number: usize, place: usize)
    ensures { page.new ≡ kept (page.old ++ (led (what_words s.now number place) ++ (10 ∷ []))) }
{
    if number == 8 {
        page.put_bytes(b" behind the close\n");
    } else {
        put_standing(page, s, place);
        page.put_byte(b'\n');
    }
}

// 1 to 8 are told of the record at their place.
fn put_at(page: &mut Page, s: &[u8], number: usize, place: usize)
    requires { Means s.now number place × (number < 9) }
    ensures { page.new ≡ kept (page.old ++ (S.told_of s.now number place ++ detail_line record_name (S.detail_of s.now number place))) }
{
    let mut labels = [0; 231];
    let mut y = [0; 220];
    put_head(page, number_records(s, place, &mut labels, &mut y));
    put_what(page, s, number, place);
    sentences::put_detail(page, b"record", more_at(s, number, place, &labels));
}

// 9 and 10 are told of the record that gives the point's input.
fn put_of_point(page: &mut Page, s: &[u8], number: usize, place: usize)
    requires { Means s.now number place × (9 ≤ number) }
    ensures { page.new ≡ kept (page.old ++ (S.told_of s.now number place ++ detail_line record_name (S.detail_of s.now number place))) }
{
    let mut labels = [0; 231];
    let mut y = [0; 220];
    number_records(s, s.len(), &mut labels, &mut y);
    put_head(page, labels[place]);
    put_point(page, place);
    page.put_byte(b'\n');
    sentences::put_detail(
        page,
        b"record",
        more_of_point(s, number, place, &labels, &y),
    );
}

fn put_place(page: &mut Page, s: &[u8])
    ensures { page.new ≡ kept (page.old ++ S.place_of s.now) }
{
    let mut x = [0; 11];
    let mut y = [0; 220];
    let t = reader::read_into(s, &mut x, &mut y);
    if t.number == 0 {
        page.put_bytes(b"nothing is refused\n");
        return;
    }
    page.put_refused(t.number, t.place);
    if t.number < 9 {
        put_at(page, s, t.number, t.place);
    } else {
        put_of_point(page, s, t.number, t.place);
    }
}

// Which record the place of a refused file means, at the front of a lent buffer.
pub fn place(file: &[u8], out: &mut [u8]) -> Result<usize, TooShort>
    ensures answer { P.as_printed result ≡ P.printed (S.place_of file.now) out.old }
    ensures after { out.new ≡ P.buffer_after (S.place_of file.now) out.old }
{
    let mut page = Page::new();
    put_place(&mut page, file);
    plain::print(page.bytes(), out)
}
