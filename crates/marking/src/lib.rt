// From the bytes of a sheet to its judgement.
#![tactic(auto)]

mod judgement;

pub use judgement::judge_bytes;
