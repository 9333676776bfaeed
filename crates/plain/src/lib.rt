// Plain text: numbers in decimal and the refusal line, put on a page behind what stands there; and bytes at the front of a lent buffer.
#![tactic(auto)]

ghost use Rattle.std.specs.Prelude.{◌∷◌, [], ◌++◌, ◌≡◌, ◌+◌, ◌≤◌, length};
ghost use Rattle.std.proofs.lemmas.List.Edits.{sets};
ghost use Rattle.plain.specs.Digits.{decimal, signed, fraction, percent};
ghost use Rattle.plain.specs.Digits as D;
ghost use Rattle.plain.specs.Plain.{refused_word, refused_line, as_printed, printed, buffer_after, kept};

use exact::Fraction;
use std::marker::Model;

// The lent buffer is too short: 14 of the paper's table.
#[derive(Clone, Copy, PartialEq, Eq)]
pub struct TooShort;

// Copies lent bytes to a place of a buffer that has room for them, and tells where they end.
pub fn copy(s: &[u8], out: &mut [u8], at: usize) -> usize
    requires { at + length s.now ≤ length out.old }
    ensures { (result ≡ at + length s.now) × (out.new ≡ sets out.old at s.now) }
{
    let end = at + s.len();
    out[at..end].copy_from_slice(s);
    end
}

// Puts lent bytes at the front of a lent buffer, if they fit, and answers their length.
pub fn print(s: &[u8], out: &mut [u8]) -> Result<usize, TooShort>
    ensures answer { as_printed result ≡ printed s.now out.old }
    ensures after { out.new ≡ buffer_after s.now out.old }
{
    if out.len() < s.len() {
        return Err(TooShort);
    }
    Ok(copy(s, out, 0))
}

// The paper's number of what was printed.
pub fn number(q: Result<usize, TooShort>) -> u8
    ensures { result ≡ (as_printed q).number }
{
    match q {
        Ok(_) => 0,
        Err(TooShort) => 14,
    }
}

fn digit(v: u64) -> u8
    ensures { result ≡ D.digit v }
{
    48 + (v % 10) as u8
}

// Bytes, of which each goes behind those that stand there. What does not fit is dropped, and no sheet needs more room. Numbers are put by methods: a `Display` would be no plainer, since `write!` gives a Result at each call and a page never fails.
#[derive(Drop)]
pub struct Page {
    bytes: [u8; 831],
    len: usize,
}

impl Model for Page {
    ghost use Rattle.std.specs.Prelude.{ℕ, List, ◌≤◌, take};

    ghost Value = { List ℕ };

    ghost view = { λ p. take p.len p.bytes };

    ghost invariant = { λ p. p.len ≤ 831 };
}

// Parts that go on a page one behind the other are on it together.
#[tactic(auto, using(crate::specs::KeptLaws::kept_twice, crate::specs::DigitLaws::decimal_one, crate::specs::DigitLaws::decimal_more))]
impl Page {
    // An empty one.
    pub fn new() -> Self
        ensures { result ≡ [] }
    {
        Page {
            bytes: [0; 831],
            len: 0,
        }
    }

    // What stands on it.
    pub fn bytes(&self) -> &[u8]
        ensures { result.now ≡ self.now }
    {
        &self.bytes[..self.len]
    }

    pub fn put_byte(&mut self, b: u8)
        ensures { self.new ≡ kept (self.old ++ (b ∷ [])) }
    {
        if self.len < 831 {
            self.bytes[self.len] = b;
            self.len += 1;
        }
    }

    pub fn put_bytes(&mut self, s: &[u8])
        ensures { self.new ≡ kept (self.old ++ s.now) }
    {
        let room = (831 - self.len).min(s.len());
        let end = self.len + room;
        self.bytes[self.len..end].copy_from_slice(&s[..room]);
        self.len = end;
    }

    pub fn put_decimal(&mut self, v: u64)
        ensures { self.new ≡ kept (self.old ++ decimal v) }
    {
        if v >= 10 {
            self.put_decimal(v / 10);
        }
        self.put_byte(digit(v));
    }

    pub fn put_signed(&mut self, z: i64)
        ensures { self.new ≡ kept (self.old ++ signed z) }
    {
        if z < 0 {
            self.put_byte(b'-');
        }
        self.put_decimal(exact::size(z));
    }

    pub fn put_fraction(&mut self, f: Fraction)
        ensures { self.new ≡ kept (self.old ++ fraction f) }
    {
        self.put_signed(f.num);
        self.put_byte(b'/');
        self.put_decimal(f.den);
    }

    pub fn put_percent(&mut self, v: u64)
        ensures { self.new ≡ kept (self.old ++ percent v) }
    {
        self.put_decimal(v / 1000);
        self.put_byte(b'.');
        self.put_byte(digit(v / 100));
        self.put_byte(digit(v / 10));
        self.put_byte(digit(v));
    }

    // `refused` and the number.
    pub fn put_number(&mut self, number: u8)
        ensures { self.new ≡ kept (self.old ++ (refused_word ++ decimal number)) }
    {
        self.put_bytes(b"refused ");
        self.put_decimal(number as u64);
    }

    // The refusal line of a file.
    pub fn put_refused(&mut self, number: usize, place: usize)
        ensures { self.new ≡ kept (self.old ++ refused_line number place) }
    {
        self.put_bytes(b"refused ");
        self.put_decimal(number as u64);
        self.put_bytes(b" at ");
        self.put_decimal(place as u64);
        self.put_byte(b'\n');
    }
}
