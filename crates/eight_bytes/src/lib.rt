// Numbers of eight bytes, as the comparison sends them.
#![tactic(auto)]

ghost use Rattle.std.specs.Prelude.{◌≡◌, ◌^◌, pos, ◌-ℤ◌};
ghost use Rattle.eight_bytes.specs.Word.{little};

// Eight bytes as a number, low byte first.
pub fn word(b: [u8; 8]) -> u64
    ensures { result ≡ little b }
{
    u64::from_le_bytes(b)
}

// The number that v is more than 2 to the 63rd.
pub fn from_excess(v: u64) -> i64
    ensures { result ≡ pos v -ℤ pos (2 ^ 63) }
{
    i64::MIN.wrapping_add_unsigned(v)
}
