// What the crates above share, with nothing of a sheet: the fields' ranges, the bolt chart, and the refusals.
#![tactic(auto)]

mod bolt;
mod range;
mod refusal;

pub use bolt::{is_discontinued, stress_area};
pub use range::{WATER, in_range};
pub use refusal::{Code, Refusal};
