// Local buckling of the shell under an earthquake, by S-6 and S-8 of document 02: the compression stress, the allowed one,
// and the coefficient by which the pressure inside helps; a function to a figure. As in `rules`, a function asks for
// ranges and bounds; nothing here knows of sheets.
#![tactic(auto)]

mod chart;
pub mod pressure;
mod shell;
pub mod stress;

pub use shell::Shell;
