// The standard streams, for the programs: what comes in and goes out is bytes, and a write that fails ends nothing.
#![tactic(auto)]

ghost use Rattle.std.specs.Prelude.{◌<◌, ◌^◌};

use plain::TooShort;

// The numbers under which a process has its standard streams.
const STDIN_FILENO: i32 = 0;

const STDOUT_FILENO: i32 = 1;

const STDERR_FILENO: i32 = 2;

// Fills a lent buffer from standard input as far as that goes, and lends what came.
pub fn read(buffer: &mut [u8]) -> &[u8] {
    let n = io::read_full(STDIN_FILENO, buffer);
    &buffer[..n]
}

pub fn print(text: &[u8]) {
    io::write_all(STDOUT_FILENO, text);
}

// The same on standard error, where a refusal is told.
pub fn tell(text: &[u8]) {
    io::write_all(STDERR_FILENO, text);
}

// Prints what `answer` puts into a buffer of MOST bytes for the first READ bytes of standard input.
pub fn print_answer<
    const READ: usize,
    const MOST: usize,
    F: Fn(&[u8], &mut [u8]) -> Result<usize, TooShort>,
>(answer: F)
    requires callable { F.IsAlwaysCallable answer }
    requires read_fits { READ < 2 ^ 63 }
    requires most_fits { MOST < 2 ^ 63 }
{
    let mut file = [0u8; READ];
    let mut out = [0u8; MOST];
    if let Ok(len) = answer(read(&mut file), &mut out)
        && let Some(text) = out.get(..len)
    {
        print(text);
    }
}
