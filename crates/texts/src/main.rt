// Prints what typed texts and run files come to as run files and listings, and how refusals are told, for the comparison with the second program.
//
// Standard input holds requests of numbers of 8 bytes, low byte first. Each is a kind, the length of a lent buffer, the length of what follows, and its bytes.
// 0 and a run file of at most 4,096 bytes: its listing in a buffer of at most 8,448 bytes.
// 1 and a text of at most 65,600 bytes: its run file in a buffer of at most 2,048 bytes; where it is refused, what tells it in a buffer of 120.
// 2 and a run file of at most 4,096 bytes: which record its place means, in a buffer of at most 8,448 bytes.
// Of each answer the numbers are printed on a line, then the whole buffer, then a line feed.
#![tactic(auto)]

use plain::TooShort;
use trial::Page;

fn put_buffer(page: &mut Page, out: &[u8]) {
    page.put_line_end();
    page.put_bytes(out);
    page.put_line_end();
}

fn put_printed(page: &mut Page, name: &[u8], q: Result<usize, TooShort>, out: &[u8]) {
    page.put_bytes(name);
    page.put_number(plain::number(q) as u64);
    page.put_number(q.unwrap_or(0) as u64);
    put_buffer(page, out);
}

fn answer_run(file: &[u8], kind: u64, out: &mut [u8]) {
    let mut page = Page::new();
    if kind == 0 {
        let q = listing_text::list(file, out);
        put_printed(&mut page, b"listing", q, out);
    } else {
        let q = place_text::place(file, out);
        put_printed(&mut page, b"place", q, out);
    }
    page.print();
}

fn put_refusal(page: &mut Page, text: &[u8], number: u8, line: usize) {
    let mut out: [u8; 120] = trial::background();
    let detail = text_detail::of_text(text);
    let q = sentences::refusal(number, line, detail, &mut out);
    put_printed(page, b"refusal", q, &out);
}

fn answer_text(text: &[u8], out: &mut [u8]) {
    let mut page = Page::new();
    let q = typed_text::run_file(text, out);
    page.put_bytes(b"typed");
    page.put_number(q.number as u64);
    page.put_number(q.line as u64);
    page.put_number(q.len as u64);
    put_buffer(&mut page, out);
    if q.number != 0 {
        put_refusal(&mut page, text, q.number, q.line);
    }
    page.print();
}

fn answer_file(kind: u64, room: usize, len: usize) {
    let mut b = [0; 4096];
    let mut out: [u8; 8448] = trial::background();
    if len <= b.len() {
        let file = streams::read(&mut b[..len]);
        if room <= out.len() {
            answer_run(file, kind, &mut out[..room]);
        }
    }
}

fn answer_typed(room: usize, len: usize) {
    let mut b = [0; 65600];
    let mut out: [u8; 2048] = trial::background();
    if len <= b.len() {
        let text = streams::read(&mut b[..len]);
        if room <= out.len() {
            answer_text(text, &mut out[..room]);
        }
    }
}

// Answers one request; None where none is left.
fn answer() -> Option<()> {
    let kind = trial::read_word()?;
    let room = trial::next_or_zero() as usize;
    let len = trial::next_or_zero() as usize;
    if kind == 1 {
        answer_typed(room, len);
    } else {
        answer_file(kind, room, len);
    }
    Some(())
}

fn main() {
    trial::answer_each(answer);
}
