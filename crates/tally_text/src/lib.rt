// The season's tally as text (document 02, S-11), in a buffer that the caller lends, however small.
#![tactic(auto)]

pub mod printing;
mod storing;
