// The tally program: reads a file of sheets, end to end, on standard input, and writes the six lines of its tally. A read that fails
// is the program's own failure, and nothing is written: the tally of a part does not pass for that of the whole.
#![tactic(auto)]

use std::io;
use std::io::Write;
use tally_text::printing;
use tally_text::printing::MOST_TALLY;
use text::printing::text_in;

fn main(rt: HostRuntime) -> io::Result<()> {
    let tally = tally::of_input(&mut rt.stdin())?;
    let mut out = [0u8; MOST_TALLY];
    let printed = printing::print(tally, &mut out);
    io::writer(&rt).write_all(text_in(printed, &out))
}
