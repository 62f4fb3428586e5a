// A report as the rest of a line of text, in the letters of oracle/vectors/record_answers.py; floats by their bits, in hexadecimal.
use reports::report::{AnchorChecks, CourseLine, Report, SelfChecks, Standing};
use rules::verdict::Verdict;
use std::io;
use std::io::Write;

pub(crate) fn report<W: Write>(out: &mut W, r: Report) -> io::Result<()> {
    write!(out, " {} wind {} {}", r.word, r.pressure, r.moment)?;
    standing(out, r.standing)?;
    let first = exact::bits(r.uses.first);
    let second = exact::bits(r.uses.second);
    write!(out, " uses {first:016x} {second:016x} courses {}", r.count)?;
    for l in r.lines {
        line(out, l)?;
    }
    writeln!(out)
}

fn standing<W: Write>(out: &mut W, s: Standing) -> io::Result<()> {
    match s {
        Standing::SelfAnchored(c) => self_anchored(out, c),
        Standing::Anchored(c) => anchored(out, c),
    }
}

fn self_anchored<W: Write>(out: &mut W, c: SelfChecks) -> io::Result<()> {
    write!(out, " self")?;
    verdict(out, c.wind)?;
    write!(out, " {} {}", c.resistance, c.uplift)?;
    verdict(out, c.quake)
}

fn anchored<W: Write>(out: &mut W, c: AnchorChecks) -> io::Result<()> {
    write!(out, " anchored {} {}", c.wind_pull, c.quake_pull)?;
    verdict(out, c.spacing)?;
    verdict(out, c.strength)
}

fn line<W: Write>(out: &mut W, l: CourseLine) -> io::Result<()> {
    if is_blank(l) {
        return write!(out, " .");
    }
    write!(out, " | {} {} {}", l.need, l.required, l.plate)?;
    verdict(out, l.verdict)
}

// Whether this is the blank line past the courses, to the bit: -0.0 == 0.0.
fn is_blank(l: CourseLine) -> bool {
    l == CourseLine::blank() && exact::bits(l.verdict.used()) == 0
}

// In the oracle's letters, as test_leaves has them in a line of their own.
fn verdict<W: Write>(out: &mut W, v: Verdict) -> io::Result<()> {
    let word = if v.holds() { "holds" } else { "short" };
    write!(out, " {word} {:016x}", exact::bits(v.used()))
}
