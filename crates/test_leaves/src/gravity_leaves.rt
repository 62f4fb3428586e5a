// The leaves that take the liquid's gravity, last (document 02, S-8), numbered from 56. Those of water stand with their rules.
use crate::clamp::{
    DIAMETER, EFFICIENCY, GRAVITY, HEIGHT, LEVEL, NET_BOTTOM, NET_PLATE, STRESS, YIELD, field,
};
use crate::print;
use buckling::{Shell, pressure};
use rules::hoop;
use stability::earthquake;
use std::io;
use std::io::Write;

pub(crate) const WATER: u64 = 1000;

// The most that the yield may be.
const MOST_YIELD: u64 = 65000;

pub(crate) fn answer<W: Write>(out: &mut W, leaf: u64, arguments: [u64; 5]) -> io::Result<()> {
    let [a, b, c, d, e] = arguments;
    match leaf {
        56 => print::value(out, root_yield(a, b)),
        57 => print::value(out, need(a, b, c, d, e)),
        58 => print::value(out, bottom_root(a, b, c, d)),
        59 => print::value(out, bottom_cap(a, b, c)),
        60 => print::value(out, bottom_weight(a, b, c, d, e)),
        61 => print::value(out, argument(a, b, c, d)),
        _ => print::out(out),
    }
}

fn root_yield(fy: u64, gravity: u64) -> u64 {
    earthquake::root_yield(field(fy, YIELD), field(gravity, GRAVITY))
}

pub(crate) fn need(h: u64, diameter: u64, stress: u64, efficiency: u64, gravity: u64) -> u64 {
    hoop::need(
        field(h, HEIGHT),
        field(diameter, DIAMETER),
        field(gravity, GRAVITY),
        field(stress, STRESS),
        field(efficiency, EFFICIENCY),
    )
}

pub(crate) fn bottom_root(plate: u64, fy: u64, level: u64, gravity: u64) -> u64 {
    earthquake::bottom_root(
        field(plate, NET_BOTTOM),
        root_yield(fy, gravity).min(MOST_YIELD),
        field(level, LEVEL),
    )
}

pub(crate) fn bottom_cap(level: u64, diameter: u64, gravity: u64) -> u64 {
    earthquake::bottom_cap(
        field(level, LEVEL),
        field(diameter, DIAMETER),
        field(gravity, GRAVITY),
    )
}

pub(crate) fn bottom_weight(plate: u64, fy: u64, level: u64, diameter: u64, gravity: u64) -> u64 {
    earthquake::bottom_weight(
        field(plate, NET_BOTTOM),
        root_yield(fy, gravity).min(MOST_YIELD),
        field(level, LEVEL),
        field(diameter, DIAMETER),
        field(gravity, GRAVITY),
    )
}

pub(crate) fn argument(level: u64, diameter: u64, net: u64, gravity: u64) -> u64 {
    let shell = Shell {
        diameter: field(diameter, DIAMETER),
        net: field(net, NET_PLATE),
    };
    pressure::argument(field(level, LEVEL), field(gravity, GRAVITY), shell)
}
