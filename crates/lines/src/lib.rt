// A report or a refusal as document 01's lines, from the start of a buffer with room for any.
#![tactic(auto)]

mod storing;

pub use storing::put_text;
