// What the programs that read share: a buffer of zeros, and reading into a buffer until it is full.
#![tactic(auto)]

ghost use Rattle.std.specs.Io.KnownBytes.{Consumes, IsAtEnd};
ghost use Rattle.std.specs.Prelude.{◌≡◌, ◌≢◌, ◌<◌, ◌≤◌, length, replicate, take};

use std::io::Read;

// How many bytes came, and what ended it.
#[derive(Clone, Copy, Debug, PartialEq, Eq)]
pub struct Filled {
    pub count: usize,
    pub ended: Ended,
}

#[derive(Clone, Copy, Debug, PartialEq, Eq)]
pub enum Ended {
    Full,
    AtEnd,
    Failed,
}

// Zeros. For any N, so that no proof counts up to a large one.
pub fn zeros<const N: usize>() -> [u8; N]
    ensures content { result ≡ replicate N 0 }
    ensures size { length result ≡ N }
{
    [0; N]
}

// Reads until the buffer is full, the input ends or a read fails. One read does not do: a pipe hands its bytes out in
// pieces, whose sizes no range counts. Whether a read fails is the reader's; the bytes are its next ones, and all that it gave.
// Behind them the buffer may hold anything, since a reader may use all the room that it is lent.
pub fn read_full<R: Read>(input: &mut R, buf: &mut [u8]) -> Filled
    ensures within { result.count ≤ length buf.new }
    ensures bytes { Consumes (R.remaining input.old) (R.remaining input.new) (take result.count buf.new) }
    ensures full { result.ended ≡ Ended.Full → result.count ≡ length buf.new }
    ensures at_end { result.ended ≡ Ended.AtEnd → IsAtEnd (R.remaining input.new) }
    ensures cut_short { result.ended ≢ Ended.Full → result.count < length buf.new }
{
    let mut count: usize = 0;
    while count < buf.len() {
        let Ok(n) = input.read(&mut buf[count..]) else {
            return Filled {
                count,
                ended: Ended::Failed,
            };
        };
        if n == 0 {
            return Filled {
                count,
                ended: Ended::AtEnd,
            };
        }
        count += n;
    }
    Filled {
        count,
        ended: Ended::Full,
    }
}
