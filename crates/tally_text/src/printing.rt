// A tally as text, in a buffer that the caller lends.
ghost use Rattle.std.specs.Prelude.{◌≡◌, ◌≤◌, length};
ghost use Rattle.text.specs.Printing.{printed, sizes_of, printed_sizes};
ghost use Rattle.tally_text.specs.Lines.{tally_lines, tally_text, most_lines, most_tally, LinesWithin};

use crate::storing;
use tally::Tally;
use text::printing;
use text::printing::TooSmall;

// A buffer of this length has room for any tally.
pub const MOST_TALLY: usize = 163;

// Fills the first bytes of the buffer with the text, gives its length, and touches no later byte.
pub fn print(t: Tally, out: &mut [u8]) -> Result<usize, TooSmall>
    ensures value { result ≡ (printed (tally_text t) out.old).answer }
    ensures buffer { out.new ≡ (printed (tally_text t) out.old).buffer }
    ensures code { sizes_of result ≡ printed_sizes (tally_text t) (length out.old) }
    ensures t_len_bound { length (tally_text t) ≤ most_tally }
    ensures lines { LinesWithin (tally_lines t) most_lines }
{
    let mut space = [0u8; MOST_TALLY];
    let size = storing::put_text(&mut space, t);
    printing::copy(&space[..size], out)
}
