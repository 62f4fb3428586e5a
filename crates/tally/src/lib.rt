// The season's tally (document 02, S-11): what a file of sheets, end to end, comes to, read part by part.
#![tactic(auto)]

mod progress;
mod stream;
mod tally;

pub use progress::of_bytes;
pub use stream::of_input;
pub use tally::Tally;
