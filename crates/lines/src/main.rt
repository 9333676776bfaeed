// Prints the lines through points, for the comparison with the second program.
//
// Standard input holds bands, each of numbers of 8 bytes, low byte first: m and d, then 11 inputs, 11 lowest and 11 highest values, each of these more by 2 to the 63rd.
// For each band five lines are printed, `terminal`, `shifted`, `best`, `zero` and `front`: width, slope and offset, or `several` and the width, or `improper`.
#![tactic(auto)]

use fit::{Drawn, Fit};
use trial::Page;

fn put_fit(page: &mut Page, f: Fit) {
    page.put_fraction(f.width);
    page.put_space();
    page.put_fraction(f.slope);
    page.put_space();
    page.put_fraction(f.offset);
}

fn put_drawn(page: &mut Page, name: &[u8], r: Drawn) {
    page.put_bytes(name);
    page.put_space();
    match r {
        Drawn::Line(f) => put_fit(page, f),
        Drawn::Several(h) => {
            page.put_bytes(b"several ");
            page.put_fraction(h.width);
        }
        Drawn::Improper => page.put_bytes(b"improper"),
    }
    page.put_line_end();
}

fn print_lines(m: usize, d: u64, x: &[i64; 11], low: &[i64; 11], high: &[i64; 11]) {
    let mut page = Page::new();
    put_drawn(&mut page, b"terminal", fit::terminal(m, d, x, low, high));
    put_drawn(&mut page, b"shifted", fit::shifted(m, d, x, low, high));
    put_drawn(&mut page, b"best", fit::best(m, d, x, low, high));
    put_drawn(&mut page, b"zero", pin::zero(m, d, x, low, high));
    put_drawn(&mut page, b"front", pin::front(m, d, x, low, high));
    page.print();
}

// Reads a band and prints its lines; None where none is left.
fn draw() -> Option<()> {
    let m = trial::read_word()? as usize;
    let d = trial::next_or_zero();
    let x = trial::next_numbers(|count| count);
    let low = trial::next_numbers(|count| count);
    let high = trial::next_numbers(|count| count);
    print_lines(m, d, &x, &low, &high);
    Some(())
}

fn main() {
    trial::answer_each(draw);
}
