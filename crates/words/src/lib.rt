// A text as lines, a line as words, a word as a number.
#![tactic(auto)]

ghost use Rattle.std.specs.Prelude.{[], ◌∷◌, ◌≡◌, ◌+◌, ◌-◌, ◌<◌, ◌≤◌, T, length, get_or, take, drop};
ghost use Rattle.words.specs.Words as W;
ghost use Rattle.words.specs.Words.{lines, words, numeral, value, unsigned, unmarked};
ghost use Rattle.words.specs.WordLaws.{Begins, Ended};

fn is_blank(b: u8) -> bool
    ensures { result ≡ W.blank b }
{
    matches!(b, b' ' | b'\t' | b'\r')
}

// The first place from `at` on where a word begins; the line's end where none does.
fn skip(line: &[u8], at: usize) -> usize
    requires { at ≤ length line.now }
    ensures { Begins line.now at result }
{
    match line[at..].iter().position(|b| !is_blank(*b)) {
        Some(k) => at + k,
        None => line.len(),
    }
}

// The place where the word that begins at `at` ends.
fn end(line: &[u8], at: usize) -> usize
    requires { at ≤ length line.now }
    ensures { Ended line.now at result }
{
    match line[at..].iter().position(|b| is_blank(*b)) {
        Some(k) => at + k,
        None => line.len(),
    }
}

// Word k of a line, counted from 0; of no bytes where there are fewer.
pub fn word(line: &[u8], k: usize) -> &[u8]
    ensures { result.now ≡ W.word line.now k }
{
    // from word to word: `split` would make a part of no bytes for each blank, which takes twice the time
    let mut from = skip(line, 0);
    for _ in 0..k {
        if from == line.len() {
            return &[];
        }
        from = skip(line, end(line, from));
    }
    &line[from..end(line, from)]
}

// How many words a line has.
pub fn count(line: &[u8]) -> usize
    ensures { result ≡ length (words line.now) }
{
    let mut from = skip(line, 0);
    let mut n = 0;
    // from word to word: no `for` goes by steps of unlike lengths
    while from < line.len() {
        from = skip(line, end(line, from));
        n += 1;
    }
    n
}

pub fn same(a: &[u8], b: &[u8]) -> bool
    ensures { result ≡ W.same a.now b.now }
{
    a == b
}

fn is_digit(b: u8) -> bool
    ensures { result ≡ W.digit b }
{
    b.is_ascii_digit()
}

fn are_digits(w: &[u8]) -> bool
    ensures { result ≡ W.digits w.now }
{
    w.iter().all(|b| is_digit(*b))
}

// From one digit to `most`, and nothing else.
pub fn is_numeral(w: &[u8], most: usize) -> bool
    ensures { result ≡ numeral most w.now }
{
    !w.is_empty() && w.len() <= most && are_digits(w)
}

// What a numeral of at most seven digits counts.
pub fn value_of(w: &[u8]) -> u64
    requires { T (numeral 7 w.now) }
    ensures is { result ≡ value w.now }
    ensures small { result < 10000000 }
{
    let mut v = 0;
    for b in w {
        v = 10 * v + (*b - b'0') as u64;
    }
    v
}

// What stands behind the minus sign, where one stands in front.
pub fn without_minus(w: &[u8]) -> &[u8]
    ensures { result.now ≡ unsigned w.now }
{
    w.strip_prefix(b"-").unwrap_or(w)
}

// The number that a word writes, with or without a minus sign.
pub fn signed_of(w: &[u8]) -> i64
    requires { T (numeral 7 (unsigned w.now)) }
    ensures { result ≡ W.signed w.now }
{
    match w.strip_prefix(b"-") {
        Some(digits) => -(value_of(digits) as i64),
        None => value_of(w) as i64,
    }
}

// Where the line that begins at `at` ends: at its line feed, or at the end of the text.
pub fn line_end(s: &[u8], at: usize) -> usize
    requires { at < length s.now }
    ensures within { (at ≤ result) × (result ≤ length s.now) }
    ensures is { lines (drop at s.now) ≡ take (result - at) (drop at s.now) ∷ lines (drop (result + 1) s.now) }
{
    match s[at..].iter().position(|b| *b == b'\n') {
        Some(k) => at + k,
        None => s.len(),
    }
}

// Line k of a text, counted from 0; of no bytes where there are fewer.
pub fn line(s: &[u8], k: usize) -> &[u8]
    ensures { result.now ≡ get_or (lines s.now) k [] }
{
    // from line to line, as a word is found
    let mut at = 0;
    for _passed in 0..k {
        if at >= s.len() {
            return &[];
        }
        at = line_end(s, at) + 1;
    }
    if at >= s.len() {
        return &[];
    }
    &s[at..line_end(s, at)]
}

// A text without the byte-order mark that may stand in front of it.
pub fn without_mark(s: &[u8]) -> &[u8]
    ensures { result.now ≡ unmarked s.now }
{
    s.strip_prefix(&[239, 187, 191]).unwrap_or(s)
}

// How many lines a text has.
pub fn count_lines(s: &[u8]) -> usize
    ensures { result ≡ length (lines s.now) }
{
    let mut at = 0;
    let mut n = 0;
    // from line to line: no `for` goes by steps of unlike lengths
    while at < s.len() {
        at = line_end(s, at) + 1;
        n += 1;
    }
    n
}
