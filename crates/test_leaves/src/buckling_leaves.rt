// The leaves of `buckling`, numbered from 53.
use crate::clamp::{COEFFICIENT, DIAMETER, NET_PLATE, field};
use crate::gravity_leaves::WATER;
use crate::{gravity_leaves, print};
use buckling::{Shell, pressure, stress};
use std::io;
use std::io::Write;

pub(crate) fn answer<W: Write>(out: &mut W, leaf: u64, arguments: [u64; 4]) -> io::Result<()> {
    let [a, b, c, _] = arguments;
    match leaf {
        53 => print::value(out, pressure::coefficient(a)),
        54 => print::value(out, gravity_leaves::argument(a, b, c, WATER)),
        55 => print::value(out, allowed(a, b, c)),
        _ => print::out(out),
    }
}

fn allowed(net: u64, diameter: u64, coefficient: u64) -> u64 {
    stress::allowed(field(coefficient, COEFFICIENT), shell(diameter, net))
}

fn shell(diameter: u64, net: u64) -> Shell {
    Shell {
        diameter: field(diameter, DIAMETER),
        net: field(net, NET_PLATE),
    }
}
