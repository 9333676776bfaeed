// Prints which record the place of a refused run file means, of the run file on standard input.
#![tactic(auto)]

// Number and place of a file depend on its first 1,837 bytes alone, and what is told has at most 831 bytes.
fn main() {
    streams::print_answer::<1837, 831, _>(place_text::place);
}
