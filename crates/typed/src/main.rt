// Makes a run file of the text on standard input, or tells on standard error what is wrong with it.
#![tactic(auto)]

// A sentence has at most 39 bytes and the number of a line five digits, so 120 bytes are enough for the three lines.
fn tell(text: &[u8], number: u8, line: usize) {
    let mut out = [0; 120];
    let detail = text_detail::of_text(text);
    if let Ok(len) = sentences::refusal(number, line, detail, &mut out)
        && let Some(told) = out.get(..len)
    {
        streams::tell(told);
    }
}

// One byte more is read than a text may have, which tells a text that is too long, and three more for a byte-order mark. No run file is longer than 1,830 bytes.
fn main() {
    let mut room = [0; 65540];
    let text = streams::read(&mut room);
    let mut out = [0; 1830];
    let q = typed_text::run_file(text, &mut out);
    if q.number != 0 {
        tell(text, q.number, q.line);
    } else if let Some(file) = out.get(..q.len) {
        streams::print(file);
    }
}
