// The leaves that take a method by its number, numbered from 50.
use crate::clamp::figure;
use crate::print;
use fields::Refusal;
use rules::hoop;
use rules::method::Method;
use std::io;
use std::io::Write;

pub(crate) fn answer<W: Write>(out: &mut W, leaf: u64, arguments: [u64; 4]) -> io::Result<()> {
    let [a, b, _, _] = arguments;
    match leaf {
        50 => print::answer(out, design_head(a, b)),
        _ => print::out(out),
    }
}

fn design_head(number: u64, h: u64) -> Result<u32, Refusal> {
    let method = Method::try_from(figure(number))?;
    Ok(hoop::design_head(method, figure(h)))
}
