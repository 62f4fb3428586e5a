// Marks a file of many sheets. Standard input is sheets, each as two bytes of length, big-endian, and then as
// many bytes; their texts are written one after the other. oracle/vectors/marker_groups.py lists both. Reads and writes go by
// the buffer.
#![tactic(auto)]

ghost use Rattle.std.specs.Prelude.{◌≤◌, ◌<◌, IfOk, IfSome, length};

use input::{Ended, read_full, zeros};
use std::io;
use std::io::{Read, Write};
use text::marker;
use text::printing::{MOST_TEXT, text_in};

// A sheet with its length has at most 65,537 bytes, so a full buffer has a whole one.
const ROOM: usize = 131072;

// Of the texts that wait to be written.
const TEXTS_ROOM: usize = 65536;

fn main(rt: HostRuntime) -> io::Result<()> {
    let mut space: [u8; ROOM] = zeros();
    let mut texts: [u8; TEXTS_ROOM] = zeros();
    mark_all(
        &mut rt.stdin(),
        &mut io::writer(&rt),
        &mut space,
        &mut texts,
    )
}

// A proved loop has to end: this one counts its turns, up to a number that no input uses up.
fn mark_all<R: Read, W: Write>(
    from: &mut R,
    to: &mut W,
    input: &mut [u8],
    out: &mut [u8],
) -> io::Result<()> {
    let mut held: usize = 0;
    for _ in 0..u64::MAX {
        let read = read_full(from, &mut input[held..]);
        let ended = read.ended != Ended::Full;
        let next = mark_sheets(to, &input[..held + read.count], ended, out)?;
        if ended {
            return Ok(());
        }
        held = keep(input, next);
    }
    Ok(())
}

// Moves the bytes from this place on to the front, and gives their number. (What is kept begins at a place of the buffer.)
fn keep(input: &mut [u8], from: usize) -> usize
    requires { from ≤ length input.old }
    ensures { result ≤ length input.old }
{
    input.copy_within(from.., 0);
    input.len() - from
}

// Marks the sheets that are whole, and gives the place after them; where the input has ended, also one that it cuts
// off. Each sheet's own length is the step to the next. The texts stand in one buffer, and are copied once.
fn mark_sheets<W: Write>(
    to: &mut W,
    sheets: &[u8],
    ended: bool,
    out: &mut [u8],
) -> io::Result<usize>
    ensures { IfOk result (λ at. at ≤ length sheets.now) }
{
    let mut rest = sheets;
    let mut used: usize = 0;
    while let Some((sheet, after)) = next_sheet(rest, ended) {
        used = with_room(to, out, used)?;
        used = mark(sheet, out, used);
        rest = after;
    }
    to.write_all(&out[..used])?;
    Ok(sheets.len() - rest.len())
}

// The first sheet and what is after it; none, where it is not to be marked (yet).
fn next_sheet(sheets: &[u8], ended: bool) -> Option<(&[u8], &[u8])>
    ensures { IfSome result (λ split. length split.1.now < length sheets.now) }
{
    let (size, rest) = sheets.split_first_chunk::<2>()?;
    let size = usize::from(u16::from_be_bytes(*size));
    if size <= rest.len() {
        return Some(rest.split_at(size));
    }
    if ended {
        return Some((rest, &[]));
    }
    None
}

// Writes the texts unless one more has room after them, and gives the place for it. (A buffer and a place, as in `mark`.)
fn with_room<W: Write>(to: &mut W, out: &[u8], used: usize) -> io::Result<usize>
    requires { used ≤ length out.now }
    ensures { IfOk result (λ at. at ≤ length out.now) }
{
    if MOST_TEXT <= out.len() - used {
        return Ok(used);
    }
    to.write_all(&out[..used])?;
    Ok(0)
}

// Stores the text of a sheet at this place, and gives the place after it. (`marker::mark` fills a slice, and a BufWriter
// lends none of its own.)
fn mark(sheet: &[u8], out: &mut [u8], used: usize) -> usize
    requires { used ≤ length out.old }
    ensures { result ≤ length out.old }
{
    let printed = marker::mark(sheet, &mut out[used..]);
    let text = text_in(printed, &out[used..]);
    used + text.len()
}
