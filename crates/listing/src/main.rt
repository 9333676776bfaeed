// Prints the listing of the run file on standard input.
#![tactic(auto)]

// No answer depends on more than the first 1,837 bytes of a file, and no listing is longer than 8,402.
fn main() {
    streams::print_answer::<1837, 8402, _>(listing_text::list);
}
