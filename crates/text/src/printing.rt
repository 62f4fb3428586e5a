// A judgement as text, in a buffer that the caller lends.
ghost use Rattle.std.specs.Prelude.{◌≡◌, ◌≤◌, length, take, Some};
ghost use Rattle.lines.specs.Text.{text_of, most_text};
ghost use Rattle.text.specs.Printing.{Prints, printed, sizes_of, printed_sizes, printed_need};

use reports::report::Judgement;
use std::error::Error;
use std::fmt;

// A buffer of this length has room for any text.
pub const MOST_TEXT: usize = 1308;

// The text has no room, and no byte of the buffer is touched.
#[derive(Clone, Copy, Debug, PartialEq, Eq)]
pub struct TooSmall {
    // The length of the text.
    pub needed: usize,
}

// What is left open is as for `Refusal`.
impl fmt::Display for TooSmall {
    ghost output = { λ e. Some (printed_need e) };

    fn fmt<W: fmt::Write>(&self, f: &mut fmt::Formatter<W>) -> fmt::Result {
        let needed = self.needed;
        write!(f, "the text needs {needed} bytes")
    }
}

impl Error for TooSmall {}

// Fills the first bytes of the buffer with the text, gives its length, and touches no later byte.
pub fn print(j: Judgement, out: &mut [u8]) -> Result<usize, TooSmall>
    ensures value { result ≡ (printed (text_of j) out.old).answer }
    ensures buffer { out.new ≡ (printed (text_of j) out.old).buffer }
    ensures code { sizes_of result ≡ printed_sizes (text_of j) (length out.old) }
    ensures j_len_bound { length (text_of j) ≤ most_text }
{
    if out.len() < MOST_TEXT {
        return print_small(j, out);
    }
    Ok(lines::put_text(out, j))
}

// By way of an array, since the length of the text is known only when it is made.
fn print_small(j: Judgement, out: &mut [u8]) -> Result<usize, TooSmall>
    ensures { Prints (text_of j) out.old result out.new }
{
    let mut space = [0u8; MOST_TEXT];
    let size = lines::put_text(&mut space, j);
    copy(&space[..size], out)
}

// The same of a text that stands in another buffer.
pub fn copy(text: &[u8], out: &mut [u8]) -> Result<usize, TooSmall>
    ensures value { result ≡ (printed text.now out.old).answer }
    ensures buffer { out.new ≡ (printed text.now out.old).buffer }
    ensures code { sizes_of result ≡ printed_sizes text.now (length out.old) }
{
    let size = text.len();
    if out.len() < size {
        return Err(TooSmall { needed: size });
    }
    out[..size].copy_from_slice(text);
    Ok(size)
}

// The text in the buffer that it was written to; none where it had no room.
pub fn text_in(printed: Result<usize, TooSmall>, out: &[u8]) -> &[u8]
    ensures { result.now ≡ take (sizes_of printed).bytes out.now }
{
    let bytes = printed.unwrap_or(0).min(out.len());
    &out[..bytes]
}

#[cfg(test)]
mod tests {
    use super::*;
    use fields::Refusal;
    use reports::report::Word;
    use stability::earthquake::Uplift;

    const PRINTED: &str = "the text needs 57 bytes|refused 16 7|refused 42|  lift|short |";

    // No clause can say that a Display does not fail.
    #[test]
    fn each_display_succeeds(rt: HostRuntime) -> fmt::Result {
        let small = TooSmall { needed: 57 };
        let refusal = Refusal::OutOfRange(7);
        let other = Refusal::BadMethod;
        let uplift = Uplift::Lift;
        let word = Word::Short;
        let text = format!(in rt.alloc(); "{small}|{refusal}|{other}|{uplift:>6}|{word:<6}|")?;
        if text.as_str() == PRINTED {
            Ok(())
        } else {
            Err(fmt::Error)
        }
    }
}
