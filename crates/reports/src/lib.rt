// What a report is: its types, the word that a tank is called, and what is held where there is nothing to say. Which report a
// sheet gets, and what is claimed of it, is in `claims`.
#![tactic(auto)]

pub mod report;
