// The questions that are asked without a sheet, numbered from 40.
use crate::clamp::figure;
use crate::print;
use slender::{Accelerations, Contents, Load, SlenderTank};
use std::io;
use std::io::Write;

pub(crate) fn answer<W: Write>(out: &mut W, leaf: u64, arguments: [u64; 9]) -> io::Result<()> {
    let [a, b, c, _, _, _, _, _, _] = arguments;
    match leaf {
        40 => motion(out, a, b, c),
        41 => moment(out, arguments),
        _ => print::out(out),
    }
}

fn motion<W: Write>(out: &mut W, class: u64, ss: u64, s1: u64) -> io::Result<()> {
    let letter = u8::try_from(class).unwrap_or(u8::MAX);
    match ground::ground_motion(letter, figure(ss), figure(s1)) {
        Ok(v) => writeln!(out, "{} {} {}", v.sds, v.sd1, v.vertical),
        Err(r) => print::refusal(out, r),
    }
}

// D, H, gravity, shell and roof each by weight and height, Ai, Ac.
fn moment<W: Write>(out: &mut W, arguments: [u64; 9]) -> io::Result<()> {
    let [d, h, gravity, ws, xs, wr, xr, ai, ac] = arguments;
    let tank = SlenderTank {
        contents: Contents {
            diameter: figure(d),
            level: figure(h),
            gravity: figure(gravity),
        },
        shell: load(ws, xs),
        roof: load(wr, xr),
    };
    let ground = Accelerations {
        impulsive: figure(ai),
        convective: figure(ac),
    };
    print::answer(out, slender::earthquake_moment(tank, ground))
}

fn load(weight: u64, height: u64) -> Load {
    Load {
        weight: figure(weight),
        height: figure(height),
    }
}
