// Replies as lines of text, in the letters of oracle/vectors/record_answers.py.
ghost use Rattle.std.specs.Prelude.{◌≤◌};

use compression::Stresses;
use entries::{Course, Entry, Sheet};
use fields::Refusal;
use std::io;
use std::io::Write;

// `accepted` is the word for what is not refused.
pub(crate) fn answer<W: Write>(
    out: &mut W,
    accepted: &str,
    answer: Result<(), Refusal>,
) -> io::Result<()> {
    match answer {
        Ok(()) => write!(out, "{accepted}"),
        Err(r) => write!(out, "{r}"),
    }
}

pub(crate) fn written<W: Write>(out: &mut W, answer: Result<usize, Refusal>) -> io::Result<()> {
    match answer {
        Ok(count) => write!(out, "wrote {count}"),
        Err(r) => write!(out, "{r}"),
    }
}

pub(crate) fn compression<W: Write>(
    out: &mut W,
    answer: Result<Stresses, Refusal>,
) -> io::Result<()> {
    match answer {
        Ok(v) => stresses(out, v)?,
        Err(r) => write!(out, "{r}")?,
    }
    writeln!(out)
}

fn stresses<W: Write>(out: &mut W, v: Stresses) -> io::Result<()> {
    let holds = if v.holds { "yes" } else { "no" };
    write!(
        out,
        "stress {} allowed {} holds {}",
        v.stress, v.allowed, holds
    )
}

pub(crate) fn buffer<W: Write>(out: &mut W, room: &[u8]) -> io::Result<()> {
    write!(out, " buffer ")?;
    for byte in room {
        write!(out, "{byte:02x}")?;
    }
    writeln!(out)
}

pub(crate) fn sheet<W: Write>(out: &mut W, s: Sheet) -> io::Result<()> {
    entry(out, "tank", s.tank)?;
    entry(out, "site", s.site)?;
    entry(out, "anchors", s.anchors)?;
    write!(out, " count {}", s.count)?;
    for course in s.courses {
        slot(out, course)?;
    }
    writeln!(out)
}

// An array by value asks for a bound of its size.
fn entry<W: Write, const N: usize, E: Entry<N>>(
    out: &mut W,
    name: &str,
    entry: Option<E>,
) -> io::Result<()>
    requires { N ≤ 7 }
{
    write!(out, " {name}")?;
    let Some(e) = entry else {
        return write!(out, " -");
    };
    for figure in e.figures() {
        write!(out, " {figure}")?;
    }
    Ok(())
}

fn slot<W: Write>(out: &mut W, c: Course) -> io::Result<()> {
    if c == Course::blank() {
        return write!(out, " -");
    }
    entry(out, "course", Some(c))
}
