// Prints fractions, for the comparison with the second program.
//
// Standard input holds records of two numbers of 8 bytes, low byte first: a numerator plus 2 to the 63rd, and a denominator.
// For each a line is printed: the fraction in lowest terms, a space, and its thousandths of one percent, or `untold`.
#![tactic(auto)]

use trial::Page;

fn put_percent(page: &mut Page, p: Option<u64>) {
    match p {
        Some(t) => page.put_count(t),
        None => page.put_bytes(b"untold"),
    }
}

fn print_line(num: i64, den: u64) {
    let mut page = Page::new();
    let f = exact::lowest(num, den);
    page.put_fraction(f);
    page.put_space();
    put_percent(&mut page, exact::thousandths(f));
    page.put_line_end();
    page.print();
}

// Reads a record and prints its line; None where no whole record is left.
fn line() -> Option<()> {
    let num = trial::read_word()?;
    let den = trial::read_word()?;
    print_line(eight_bytes::from_excess(num), den);
    Some(())
}

fn main() {
    trial::answer_each(line);
}
