// How the refusal of a typed text is told, and what more is told of any refusal.
#![tactic(auto)]

ghost use Rattle.std.specs.Prelude.{◌∷◌, ◌++◌, ◌≡◌};
ghost use Rattle.plain.specs.Digits.{decimal};
ghost use Rattle.plain.specs.Plain as P;
ghost use Rattle.plain.specs.Plain.{kept};
ghost use Rattle.sentences.specs.Sentences as S;

use detail::Detail;
use plain::{Page, TooShort};

fn put_sentence(page: &mut Page, number: u8)
    ensures { page.new ≡ kept (page.old ++ S.sentence number) }
{
    let said: &[u8] = match number {
        41 => b"no line tells points and cycles\n",
        42 => b"this line is not understood\n",
        43 => b"3 to 11 points and 1 to 10 cycles\n",
        44 => b"no such point or cycle or stroke here\n",
        45 => b"this number is beyond its limits\n",
        46 => b"this was told before\n",
        47 => b"a point or a reading is missing\n",
        48 => b"the text is longer than 65536 bytes\n",
        49 => b"this input is not above the one before\n",
        50 => b"two cycles are over 10000 apart here\n",
        _ => b"",
    };
    page.put_bytes(said);
}

// ---- what more is told, each on a line
#[tactic(auto, using(plain::specs::KeptLaws::kept_twice))]
fn put_word(page: &mut Page, k: usize, end: &[u8])
    ensures { page.new ≡ kept (page.old ++ (S.word_name ++ (32 ∷ (decimal k ++ end.now)))) }
{
    page.put_bytes(b"word ");
    page.put_decimal(k as u64);
    page.put_bytes(end);
}

#[tactic(auto, using(plain::specs::KeptLaws::kept_twice), unfolding(spoken::specs::Said::spaced))]
fn put_earlier(page: &mut Page, noun: &[u8], label: usize)
    ensures { page.new ≡ kept (page.old ++ S.detail_line noun.now (Detail.Earlier label)) }
{
    page.put_bytes(noun);
    page.put_byte(b' ');
    page.put_decimal(label as u64);
    page.put_bytes(b" told it first\n");
}

#[tactic(auto, using(plain::specs::KeptLaws::kept_twice), unfolding(spoken::specs::Said::spaced))]
fn put_input(page: &mut Page, i: usize)
    ensures { page.new ≡ kept (page.old ++ S.detail_line S.line_name (Detail.Input i)) }
{
    page.put_bytes(b"point ");
    page.put_decimal(i as u64);
    page.put_bytes(b" is missing\n");
}

#[tactic(auto, using(plain::specs::KeptLaws::kept_twice, crate::specs::SentenceLaws::reading_missing))]
fn put_reading(page: &mut Page, s: usize, c: usize, i: usize)
    ensures { page.new ≡ kept (page.old ++ S.detail_line S.line_name (Detail.Reading s c i)) }
{
    spoken::put_reading_place(page, s, c, i);
    page.put_bytes(b" is missing\n");
}

fn put_apart(page: &mut Page, noun: &[u8], high: usize, low: usize)
    ensures { page.new ≡ kept (page.old ++ S.detail_line noun.now (Detail.Apart high low)) }
{
    page.put_bytes(noun);
    page.put_bytes(b"s ");
    page.put_decimal(high as u64);
    page.put_bytes(b" and ");
    page.put_decimal(low as u64);
    page.put_bytes(b" lie apart\n");
}

// What more is told of a refusal; `noun` names what the labels count.
#[tactic(auto, unfolding(spoken::specs::Said::spaced))]
pub fn put_detail(page: &mut Page, noun: &[u8], d: Detail)
    ensures { page.new ≡ kept (page.old ++ S.detail_line noun.now d) }
{
    match d {
        Detail::Nothing => page.put_bytes(b""),
        Detail::Word { k } => put_word(page, k, b" is not understood\n"),
        Detail::NoWord { k } => put_word(page, k, b" is missing\n"),
        Detail::Earlier { label } => put_earlier(page, noun, label),
        Detail::Input { index } => put_input(page, index),
        Detail::Reading {
            stroke,
            cycle,
            index,
        } => put_reading(page, stroke, cycle, index),
        Detail::Apart { high, low } => put_apart(page, noun, high, low),
    }
}

#[tactic(auto, using(plain::specs::KeptLaws::kept_twice))]
fn put_refusal(page: &mut Page, number: u8, line: usize, d: Detail)
    ensures { page.new ≡ kept (page.old ++ S.refusal number line d) }
{
    page.put_number(number);
    page.put_bytes(b" line ");
    page.put_decimal(line as u64);
    page.put_byte(b'\n');
    put_sentence(page, number);
    put_detail(page, b"line", d);
}

// The lines that tell a refusal, at the front of a lent buffer: two, and one more where more is told.
pub fn refusal(number: u8, line: usize, d: Detail, out: &mut [u8]) -> Result<usize, TooShort>
    ensures answer { P.as_printed result ≡ P.printed (S.refusal number line d) out.old }
    ensures after { out.new ≡ P.buffer_after (S.refusal number line d) out.old }
{
    let mut page = Page::new();
    put_refusal(&mut page, number, line, d);
    plain::print(page.bytes(), out)
}
