// Runs vectors for the leaf functions, and for questions without a sheet. Standard input is lines of up to ten
// numbers: which function, and its arguments, 0 where the line has fewer. Each line's reply is written on a
// line of its own. oracle/vectors/leaf_table.py numbers the functions; the oracle makes both the vectors and what is to be written.
#![tactic(auto)]

mod buckling_leaves;
mod clamp;
mod exact_leaves;
mod field_leaves;
mod gravity_leaves;
mod method_leaves;
mod print;
mod question_leaves;
mod rule_leaves;
mod weight_leaves;

use std::io::{BufRead, BufReader, BufWriter, Write};
use std::{array, io};

// A read that fails, or a line that is no text, ends the program with its error.
fn main(rt: HostRuntime) -> io::Result<()> {
    let alloc = rt.alloc();
    let mut out = BufWriter::new(alloc, io::writer(&rt))?;
    for line in BufReader::new(alloc, rt.reader())?.lines(alloc) {
        answer(&mut out, numbers(&line?))?;
    }
    out.flush()
}

// Ten numbers; what the line lacks is 0, and what is no number, too: the oracle writes none.
fn numbers(line: &str) -> [u64; 10] {
    let mut words = line.split(' ');
    array::from_fn(|_| words.next().and_then(|word| word.parse().ok()).unwrap_or(0))
}

// The leaf's number is the vectors': it is matched here and in the leaf's module alone, to call a function.
fn answer<W: Write>(out: &mut W, line: [u64; 10]) -> io::Result<()> {
    let [leaf, a, b, c, d, e, f, g, h, i] = line;
    let arguments = [a, b, c, d];
    match leaf {
        0..=9 => exact_leaves::answer(out, leaf, arguments),
        10..=19 => field_leaves::answer(out, leaf, arguments),
        20..=39 => rule_leaves::answer(out, leaf, arguments),
        40..=49 => question_leaves::answer(out, leaf, [a, b, c, d, e, f, g, h, i]),
        50 => method_leaves::answer(out, leaf, arguments),
        51..=52 => weight_leaves::answer(out, leaf, arguments),
        53..=55 => buckling_leaves::answer(out, leaf, arguments),
        _ => gravity_leaves::answer(out, leaf, [a, b, c, d, e]),
    }
}
