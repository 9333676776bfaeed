// Prints the sheet of the run file on standard input.
#![tactic(auto)]

// No answer depends on more than the first 1,837 bytes of a file, and no sheet is longer than 831.
fn main() {
    streams::print_answer::<1837, 831, _>(sheet_text::sheet);
}
