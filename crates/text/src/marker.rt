// The whole marker: from the bytes of a sheet to the text of its report or its refusal.
ghost use Rattle.std.specs.Prelude.{◌≡◌, ◌≤◌, length};
ghost use Rattle.rules.specs.declared.method.Method.TheVariants.{D100};
ghost use Rattle.sheet.specs.Complete.{entries_of};
ghost use Rattle.sheet.specs.Reading.{read_in};
ghost use Rattle.lines.specs.Justified.{TextJustified};
ghost use Rattle.lines.specs.Text.{most_text};
ghost use Rattle.text.specs.Printing.{printed, sizes_of, printed_sizes};
ghost use Rattle.marking.specs.Marking.{marked};
ghost use Rattle.text.specs.Marking.{marked_text};

use crate::printing;
use crate::printing::TooSmall;

// One byte more than the longest sheet has: nothing past it makes a difference to the text.
pub const MOST_BYTES: usize = 305;

// Reads the sheet that these bytes hold, judges it by D100, and fills the first bytes of the buffer with the text.
pub fn mark(bytes: &[u8], out: &mut [u8]) -> Result<usize, TooSmall>
    ensures value { result ≡ (printed (marked_text bytes.now) out.old).answer }
    ensures buffer { out.new ≡ (printed (marked_text bytes.now) out.old).buffer }
    ensures code { sizes_of result ≡ printed_sizes (marked_text bytes.now) (length out.old) }
    ensures bytes_len_bound { length (marked_text bytes.now) ≤ most_text }
    ensures text_justified { TextJustified D100 (entries_of (read_in bytes.now).sheet) (marked bytes.now) }
{
    let judgement = marking::judge_bytes(bytes);
    printing::print(judgement, out)
}
