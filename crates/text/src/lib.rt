// A judgement as text, in a buffer that the caller lends, however small; and the whole marker, from the bytes
// of a sheet to its text.
#![tactic(auto)]

pub mod marker;
pub mod printing;
