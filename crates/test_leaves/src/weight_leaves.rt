// The leaves of the dead weight that resists uplift in an earthquake, in ten-thousandths of a pound; numbered
// from 51.
use crate::clamp::{VERTICAL, WEIGHT, field};
use crate::print;
use crate::rule_leaves::pull;
use stability::anchors::DeadWeight;
use std::io;
use std::io::Write;

// The most that a dead weight may be.
const MOST_PARTS: u64 = 100000000000;

pub(crate) fn answer<W: Write>(out: &mut W, leaf: u64, arguments: [u64; 4]) -> io::Result<()> {
    let [a, b, c, d] = arguments;
    match leaf {
        51 => print::value(out, reduced(a, b)),
        52 => print::value(out, reduced_pull(a, b, c, d)),
        _ => print::out(out),
    }
}

fn reduced(weight: u64, vertical: u64) -> u64 {
    DeadWeight::reduced(field(weight, WEIGHT), field(vertical, VERTICAL)).num
}

fn reduced_pull(moment: u64, weight: u64, circle: u64, count: u64) -> i64 {
    let left = DeadWeight {
        num: weight.min(MOST_PARTS),
        den: 10000,
    };
    pull(moment, left, circle, count)
}
