// What the programs that the comparison runs have in common: numbers in, numbers out.
#![tactic(auto)]

mod page;

ghost use Rattle.std.specs.Prelude.{◌≡◌, length};

pub use page::Page;

// More requests than this are not answered: a loop has to end.
const MOST: u32 = 1000000;

// Answers one request after another, until `answer` has no answer.
pub fn answer_each<F: Fn() -> Option<()>>(answer: F)
    requires { F.IsAlwaysCallable answer }
{
    for _ in 0..MOST {
        if answer().is_none() {
            return;
        }
    }
}

// What the next eight bytes of standard input hold, where there are eight.
pub fn read_word() -> Option<u64> {
    let mut b = [0; 8];
    if streams::read(&mut b).len() < 8 {
        return None;
    }
    Some(eight_bytes::word(b))
}

pub fn next_or_zero() -> u64 {
    read_word().unwrap_or(0)
}

// The next N numbers, each as `of` makes it of a count.
pub fn next_numbers<T, const N: usize, F: Fn(i64) -> T>(of: F) -> [T; N]
    requires { F.IsAlwaysCallable of }
{
    std::array::from_fn(|_| of(eight_bytes::from_excess(next_or_zero())))
}

// What a buffer holds before a write. The contract gives only the length, which lending a part of it needs.
pub fn background<const N: usize>() -> [u8; N]
    ensures { N ≡ length result }
{
    [170; N]
}
