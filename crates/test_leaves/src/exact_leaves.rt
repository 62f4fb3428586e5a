// The leaves of `exact`, numbered from 1. What is cut down to fit goes by `as`: TryFrom would test it again. A number below 0
// comes as a sign and a size, as the oracle writes it.
ghost use Rattle.std.specs.Prelude.{◌<◌};

use crate::clamp::figure;
use crate::print;
use std::io;
use std::io::Write;

// The most that either number of a comparison may be.
const MOST_SIDE: u64 = (1 << 53) - 1;

// The greatest i64.
const MOST_SIZE: u64 = i64::MAX as u64;

pub(crate) fn answer<W: Write>(out: &mut W, leaf: u64, arguments: [u64; 4]) -> io::Result<()> {
    let [a, b, c, d] = arguments;
    match leaf {
        1 => print::value(out, exact::down(a, b.max(1))),
        2 => print::value(out, exact::up(a, b.max(1))),
        3 => print::value(out, up_signed(a, b, c)),
        4 => print::value(out, exact::greatest_root(a.max(1), b)),
        5 => print::float(out, nearest(a, b)),
        6 => print::value(out, signed(a, b)),
        // A product past 64 bits, divided by one factor after another. A function of the rounding, for both arms,
        // would be no shorter, with its clause that it may be called.
        7 => {
            let first = exact::down(product(a, b), divisor(c));
            print::wide(out, exact::down(first, divisor(d)))
        }
        8 => {
            let first = exact::up(product(a, b), divisor(c));
            print::wide(out, exact::up(first, divisor(d)))
        }
        9 => print::value(out, exact::root_up(a)),
        _ => print::out(out),
    }
}

fn up_signed(negative: u64, size: u64, den: u64) -> i64 {
    exact::up_signed(signed(negative, size), den.clamp(1, MOST_SIZE) as i64)
}

fn nearest(need: u64, capacity: u64) -> f64 {
    exact::nearest(need.min(MOST_SIDE), capacity.clamp(1, MOST_SIDE))
}

fn product(a: u64, b: u64) -> u128 {
    exact::product(a, u64::from(figure(b)))
}

fn divisor(x: u64) -> u128
    ensures { 0 < result }
{
    u128::from(figure(x).max(1))
}

// The number of this size, negative where `negative` is not 0.
pub(crate) fn signed(negative: u64, size: u64) -> i64 {
    let z = size.min(MOST_SIZE) as i64;
    if negative == 0 { z } else { -z }
}
