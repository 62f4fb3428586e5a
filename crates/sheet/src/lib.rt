// The check sheet: the steps that fill it in, reading, and the sheets that a run of them leaves; and what is promised
// of writing. A sheet goes in by value and comes back by value; nothing here knows the rules.
#![tactic(auto)]

pub mod reach;
pub mod reading;
pub mod steps;
