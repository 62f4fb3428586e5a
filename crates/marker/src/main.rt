// The printing program: reads a sheet on standard input, and writes its report or its refusal. A read that
// fails counts as the end of the input.
#![tactic(auto)]

use input::read_full;
use std::io;
use std::io::Write;
use text::marker;
use text::marker::MOST_BYTES;
use text::printing::{MOST_TEXT, text_in};

fn main(rt: HostRuntime) -> io::Result<()> {
    let mut bytes = [0u8; MOST_BYTES];
    let n = read_full(&mut rt.stdin(), &mut bytes).count;
    let mut out = [0u8; MOST_TEXT];
    let printed = marker::mark(&bytes[..n], &mut out);
    io::writer(&rt).write_all(text_in(printed, &out))
}
