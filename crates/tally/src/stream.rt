// The tally of a file that comes by a reader, in a buffer that does not grow with the file.
ghost use Rattle.std.specs.Prelude.{◌≡◌, ◌≤◌, ◌<◌, ◌-◌, length, take, drop};
ghost use Rattle.tally.specs.Stream.{one_buffer, ReadBehind, TallyOf};

use crate::progress::Progress;
use crate::tally::Tally;
use input::zeros;
use std::io;
use std::io::Read;

// More than 2 + L bytes for any L, so a full buffer holds a whole sheet or a length that no sheet has.
const ROOM: usize = 131072;

// The tally of all that the reader gives. A read that fails is passed on: the tally of a part does not pass for that of the whole.
pub fn of_input<R: Read>(input: &mut R) -> io::Result<Tally>
    ensures { TallyOf one_buffer (R.remaining input.old) (R.remaining input.new) result }
{
    let mut buffer: [u8; ROOM] = zeros();
    read_all(input, &mut buffer)
}

// Takes what each read brings, so that nothing is waited for once the last sheet is there, or a length that no sheet has.
fn read_all<R: Read>(input: &mut R, buffer: &mut [u8]) -> io::Result<Tally>
    requires { 65538 ≤ length buffer.old }
    ensures { TallyOf (length buffer.old) (R.remaining input.old) (R.remaining input.new) result }
{
    let mut progress = Progress::start();
    let mut held: usize = 0;
    while progress.room > 0 {
        let n = read_behind(input, buffer, held)?;
        if n == 0 {
            return Ok(progress.take(&buffer[..held], true).progress.tally);
        }
        let end = held + n;
        let taken = progress.take(&buffer[..end], false);
        progress = taken.progress;
        held = keep(buffer, taken.used, end);
    }
    Ok(progress.tally)
}

// Reads behind the bytes that are held, and gives how many came.
fn read_behind<R: Read>(input: &mut R, buffer: &mut [u8], held: usize) -> io::Result<usize>
    requires { held < length buffer.old }
    ensures size { length buffer.new ≡ length buffer.old }
    ensures behind { ReadBehind (R.remaining input.old) (R.remaining input.new) held buffer.old result buffer.new }
{
    input.read(&mut buffer[held..])
}

// Moves what is left to the front, and gives its length.
fn keep(buffer: &mut [u8], from: usize, end: usize) -> usize
    requires order { from ≤ end }
    requires inside { end ≤ length buffer.old }
    ensures count { result ≡ end - from }
    ensures size { length buffer.new ≡ length buffer.old }
    ensures kept { take result buffer.new ≡ drop from (take end buffer.old) }
{
    buffer.copy_within(from..end, 0);
    end - from
}
