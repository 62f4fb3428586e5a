// Runs scripts of steps, sheets that are built by hand, and bytes, judges sheets and asks about their shell
// compression. Standard input is
// records: a code, two bytes of length, and the payload, whose figures have four bytes each, big-endian.
// One sheet is held from record to record; each record's reply is written on a line of its own.
// oracle/vectors/records.py has the format; the oracle makes both the scripts and what is to be written.
#![tactic(auto)]

mod figures;
mod print;
mod report;

use crate::figures::Figures;
use compression::{Stresses, shell_compression};
use entries::Sheet;
use fields::Refusal;
use input::read_full;
use judge::judging;
use reports::report::Judgement;
use sheet::steps::{Reply, Step};
use sheet::{reading, steps};
use std::io;
use std::io::{BufWriter, Read, Write};

// More records than any file has, so that the program ends.
const MOST_RECORDS: usize = 100000;

// The longest payload.
const MOST_PAYLOAD: usize = 4096;

// The longest buffer that is written into.
const MOST_BUFFER: u32 = 512;

fn main(rt: HostRuntime) -> io::Result<()> {
    let mut out = BufWriter::new(rt.alloc(), io::writer(&rt))?;
    records(&mut out, &mut rt.stdin())?;
    out.flush()
}

fn records<W: Write, R: Read>(out: &mut W, input: &mut R) -> io::Result<()> {
    let mut held = Sheet::empty();
    for _ in 0..MOST_RECORDS {
        let mut head = [0; 3];
        if read_full(input, &mut head).count < 3 {
            return Ok(());
        }
        let [code, high, low] = head;
        let size = usize::from(u16::from_be_bytes([high, low]));
        let mut space = [0; MOST_PAYLOAD];
        let Some(payload) = space.get_mut(..size) else {
            return Ok(());
        };
        read_full(input, payload);
        held = answer(out, held, code, payload)?;
    }
    Ok(())
}

// The sheet after one record. Its code is the file's, and is matched here alone, to call a function.
fn answer<W: Write>(out: &mut W, held: Sheet, code: u8, payload: &[u8]) -> io::Result<Sheet> {
    let mut figures = Figures::new(payload);
    match code {
        0 => shown(out, Sheet::empty()),
        1 => replied(out, steps::take(held, Step::StateTank(figures.entry()))),
        2 => replied(out, steps::take(held, Step::StateSite(figures.entry()))),
        3 => replied(out, steps::take(held, Step::StateAnchors(figures.entry()))),
        4 => replied(out, steps::take(held, Step::AddCourse(figures.entry()))),
        5 => written(out, held, figures),
        6 => replied(out, reading::read(payload)),
        7 => shown(out, figures.sheet()),
        8 => judged(out, held, marking::judge_bytes(payload)),
        9 => {
            let s = figures.sheet();
            judged(out, held, judging::judge(figures.figure(), s))
        }
        10 => judged(out, held, judging::judge(figures.figure(), held)),
        11 => {
            let s = figures.sheet();
            asked(out, held, shell_compression(figures.figure(), s))
        }
        _ => asked(out, held, shell_compression(figures.figure(), held)),
    }
}

fn shown<W: Write>(out: &mut W, s: Sheet) -> io::Result<Sheet> {
    write!(out, "held")?;
    print::sheet(out, s)?;
    Ok(s)
}

fn replied<W: Write>(out: &mut W, reply: Reply) -> io::Result<Sheet> {
    print::answer(out, "ok", reply.answer)?;
    print::sheet(out, reply.sheet)?;
    Ok(reply.sheet)
}

// Writes into a buffer of the size that the payload gives, filled with a pattern. (A usize is not From a u32, and what was
// cut down fits.)
fn written<W: Write>(out: &mut W, held: Sheet, mut figures: Figures) -> io::Result<Sheet> {
    let mut space = [0; MOST_BUFFER as usize];
    let size = figures.figure().min(MOST_BUFFER) as usize;
    let fill = (figures.figure() % 256) as u8;
    let room = &mut space[..size];
    figures::pattern(room, fill);
    print::written(out, complete::write(held, room))?;
    print::buffer(out, room)?;
    Ok(held)
}

// The sheet that is held stays as it is.
fn judged<W: Write>(out: &mut W, held: Sheet, judgement: Judgement) -> io::Result<Sheet> {
    print::answer(out, "accepted", judgement.answer)?;
    report::report(out, judgement.report)?;
    Ok(held)
}

// Nor does this question change it.
fn asked<W: Write>(
    out: &mut W,
    held: Sheet,
    reply: Result<Stresses, Refusal>,
) -> io::Result<Sheet> {
    print::compression(out, reply)?;
    Ok(held)
}
