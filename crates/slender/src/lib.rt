// The earthquake moment of a slender tank (document 02, S-9): a question of its own, with nothing of a sheet.
#![tactic(auto)]

mod moments;
mod question;
mod tank;
mod weights;

pub use question::earthquake_moment;
pub use tank::{Accelerations, Contents, Load, SlenderTank};
