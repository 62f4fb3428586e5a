// Ground motion from the map values (document 02, S-2): a question of its own, with nothing of a sheet.
#![tactic(auto)]

mod chart;
mod class;
mod motion;

pub use motion::{DesignValues, ground_motion};
