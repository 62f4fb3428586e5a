// A sheet into bytes (document 01, "Filling in" and "Order"; document 02, S-1, S-8 and S-10), in a buffer that the caller lends.
// Where it is refused, no byte of the buffer is touched.
ghost use Rattle.std.specs.Prelude.{◌≡◌, length};
ghost use Rattle.sheet.specs.Complete.{Valid};
ghost use Rattle.sheet.specs.Writing.{written, written_entries, write_code, written_code};
ghost use Rattle.sheet.specs.Reading.{ReadsBack};

use crate::status;
use entries::{Entries, Sheet};
use fields::Refusal;

// Fills the first 64 + 20 × n bytes, those of version 2, which are read as the same sheet, and gives that number. Refused: 30,
// 32, 35, 36, 38, 39, 19.
pub fn write(s: Sheet, out: &mut [u8]) -> Result<usize, Refusal>
    ensures value { result ≡ (written s out.old).answer }
    ensures buffer { out.new ≡ (written s out.old).buffer }
    ensures code { write_code result ≡ written_code s (length out.old) }
    ensures reads_back { ReadsBack s result out.new }
{
    write_entries(status::of_sheet(s)?, out)
}

// The entries of a complete sheet. Refused: 39, 19.
fn write_entries(e: Entries, out: &mut [u8]) -> Result<usize, Refusal>
    requires { Valid e }
    ensures value { result ≡ (written_entries e out.old).answer }
    ensures buffer { out.new ≡ (written_entries e out.old).buffer }
{
    flaws::size_flaw(e.anchors)?;
    let n = e.count;
    let size = 64 + 20 * n;
    if out.len() < size {
        return Err(Refusal::BufferTooShort);
    }
    layout::writing::put_prefix(out, e.tank, n);
    layout::writing::put_tail_head(out, 31, e.site, e.anchors, n);
    layout::writing::put_courses(out, 64, &e.courses[..n]);
    Ok(size)
}
