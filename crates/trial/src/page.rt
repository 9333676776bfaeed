// What is to be printed gathers on a page, and the whole answer is then written by one call. A page that is full is written before more is put, so nothing is dropped.
ghost use Rattle.std.specs.Prelude.{◌≤◌};

use exact::Fraction;

#[derive(Clone, Copy)]
pub struct Page {
    bytes: [u8; 8192],
    len: usize,
    ghost within: { len ≤ 8192 },
}

impl Page {
    pub fn new() -> Page {
        Page {
            bytes: [0; 8192],
            len: 0,
        }
    }

    // Writes what stands on the page.
    pub fn print(&self) {
        streams::print(&self.bytes[..self.len]);
    }

    // A byte at the place reached, and the next place. The loops keep the place in a local, so that it stays in a register: of a field each byte would wait for the store of the one before it.
    fn put_at(&mut self, at: usize, b: u8) -> usize
        requires { at ≤ 8192 }
        ensures { result ≤ 8192 }
    {
        let mut here = at;
        if here == self.bytes.len() {
            self.len = here;
            self.print();
            here = 0;
        }
        self.bytes[here] = b;
        here + 1
    }

    pub fn put_bytes(&mut self, s: &[u8]) {
        let mut at = self.len;
        for b in s {
            at = self.put_at(at, *b);
        }
        self.len = at;
    }

    fn put_byte(&mut self, b: u8) {
        self.put_bytes(&[b]);
    }

    pub fn put_count(&mut self, n: u64) {
        let mut text = [0; 20];
        let k = io::decimal(n, &mut text);
        self.put_bytes(&text[..k]);
    }

    pub fn put_signed(&mut self, z: i64) {
        if z < 0 {
            self.put_byte(b'-');
        }
        self.put_count(exact::size(z));
    }

    // A `Display` of numbers and fractions would be no plainer: `write!` gives a Result at each call, and a page never fails.
    pub fn put_fraction(&mut self, f: Fraction) {
        self.put_signed(f.num);
        self.put_byte(b'/');
        self.put_count(f.den);
    }

    pub fn put_space(&mut self) {
        self.put_byte(b' ');
    }

    pub fn put_line_end(&mut self) {
        self.put_byte(b'\n');
    }

    // A space and a number.
    pub fn put_number(&mut self, n: u64) {
        self.put_space();
        self.put_count(n);
    }

    // A space and an item, for each of them.
    pub fn put_each<T, F: Fn(&mut Page, &T)>(&mut self, items: &[T], put: F)
        requires { F.IsAlwaysCallable put }
    {
        for item in items {
            self.put_space();
            put(self, item);
        }
    }

    // The bytes, two digits each, as a line.
    pub fn put_hex(&mut self, s: &[u8]) {
        let mut at = self.len;
        for b in s {
            at = self.put_at(at, glyph(*b / 16));
            at = self.put_at(at, glyph(*b));
        }
        self.len = at;
        self.put_line_end();
    }
}

// The low four bits of a byte as a digit: `io::hex` fills sixteen bytes to give two.
fn glyph(b: u8) -> u8 {
    let glyphs = *b"0123456789abcdef";
    glyphs[(b % 16) as usize]
}
