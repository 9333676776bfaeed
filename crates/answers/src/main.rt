// Prints what the crates of the bench answer, for the comparison with the second program.
//
// Standard input holds requests of numbers of 8 bytes, low byte first. Each is a kind, the length of a buffer, at most 2,048, and a file or a run.
// A file is a length, at most 4,096, and its bytes. A run is m, n and its strokes, 11 inputs and 220 readings, each of these inputs and readings more by 2 to the 63rd.
// 0 and a file: the reader's answer is printed, and where it is accepted what writing the run into the buffer gives.
// 1 and a run: what writing it into the buffer gives.
// 2 and a file: its sheet in the buffer.
// 3 and a run: its averages and its indices; the buffer's length counts for nothing.
// 4 and a file: the reader's answer up to the close, and where that ends; a buffer is lent and left alone.
#![tactic(auto)]

mod files;
mod runs;

use run::Run;
use trial::Page;
use units::{Input, Reading};

fn next_run() -> Run {
    Run {
        m: trial::next_or_zero() as usize,
        n: trial::next_or_zero() as usize,
        strokes: trial::next_or_zero() as usize,
        x: trial::next_numbers(|count| Input { count }),
        y: trial::next_numbers(|count| Reading { count }),
    }
}

fn answer_file(page: &mut Page, kind: u64, out: &mut [u8]) -> Option<()> {
    let len = trial::next_or_zero();
    if 4096 < len {
        return None;
    }
    let mut b = [0; 4096];
    let file = streams::read(&mut b[..len as usize]);
    files::put_file(page, kind, file, out);
    Some(())
}

fn answer_into(page: &mut Page, kind: u64, out: &mut [u8]) -> Option<()> {
    match kind {
        0 | 2 | 4 => answer_file(page, kind, out),
        1 => {
            files::put_write(page, &next_run(), out);
            Some(())
        }
        _ => None,
    }
}

fn answer_kind(page: &mut Page, kind: u64) -> Option<()> {
    let room = trial::next_or_zero();
    if kind == 3 {
        runs::put_figures(page, &next_run());
        return Some(());
    }
    if 2048 < room {
        return None;
    }
    let mut out: [u8; 2048] = trial::background();
    answer_into(page, kind, &mut out[..room as usize])
}

// Answers one request; None where none is left, and where one is beyond its limits, of which nothing is printed.
fn answer() -> Option<()> {
    let kind = trial::read_word()?;
    let mut page = Page::new();
    answer_kind(&mut page, kind)?;
    page.print();
    Some(())
}

fn main() {
    trial::answer_each(answer);
}
