// A reply as a line of text.
use fields::Refusal;
use rules::verdict::Verdict;
use std::fmt::Display;
use std::io;
use std::io::Write;

// For a number that no leaf has.
pub(crate) fn out<W: Write>(out: &mut W) -> io::Result<()> {
    writeln!(out, "out")
}

pub(crate) fn value<W: Write, T: Display + Drop>(out: &mut W, value: T) -> io::Result<()> {
    writeln!(out, "{value}")
}

// A number past 64 bits by two parts, of which the low one has 32.
pub(crate) fn wide<W: Write>(out: &mut W, n: u128) -> io::Result<()> {
    writeln!(out, "{} {}", n >> 32, n % (1 << 32))
}

// A float by its bits, in hexadecimal.
pub(crate) fn float<W: Write>(out: &mut W, x: f64) -> io::Result<()> {
    writeln!(out, "{:016x}", exact::bits(x))
}

// In the oracle's letters, as test_steps has them in a line.
pub(crate) fn verdict<W: Write>(out: &mut W, v: Verdict) -> io::Result<()> {
    let word = if v.holds() { "holds" } else { "short" };
    writeln!(out, "{word} {:016x}", exact::bits(v.used()))
}

// Not by Display: the vectors have a field for each, 0 for none.
pub(crate) fn refusal<W: Write>(out: &mut W, r: Refusal) -> io::Result<()> {
    let code = r.code();
    writeln!(out, "refused {} {}", code.number, code.field)
}

pub(crate) fn answer<W: Write, T: Display + Drop>(
    out: &mut W,
    answer: Result<T, Refusal>,
) -> io::Result<()> {
    match answer {
        Ok(v) => value(out, v),
        Err(r) => refusal(out, r),
    }
}
