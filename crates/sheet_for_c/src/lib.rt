// The sheet for programs in C: size_t wheattunic_sheet(const uint8_t *file, size_t file_len, uint8_t *out, size_t out_len).
#![tactic(auto)]

ghost use Rattle.sheet_for_c.specs.ForC.{Handed};

// Puts the sheet of any byte string at the front of a buffer, and answers its length; 0 where the buffer is too short, which then stays as it was.
#[unsafe(no_mangle)]
pub extern "C" fn wheattunic_sheet(file: &[u8], out: &mut [u8]) -> usize
    ensures { Handed file.now out.old out.new result }
{
    let q = sheet_text::sheet(file, out);
    q.unwrap_or(0)
}
