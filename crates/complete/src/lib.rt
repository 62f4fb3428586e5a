// What judging and writing ask of a sheet first: whether it is complete, and its entries; and writing. Nothing
// here knows the rules.
#![tactic(auto)]

mod status;
mod writing;

pub use status::{of_bytes, of_sheet};
pub use writing::write;
