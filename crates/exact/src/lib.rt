// Whole-number arithmetic that loses nothing: quotients and roots rounded to a stated side, quotients past 64
// bits too, and the one f64 nearest to a quotient.
#![tactic(auto)]

mod float;
mod quotient;
mod ratio;
mod root;
mod sign;
mod wide;

pub use float::bits;
pub use quotient::{Unsigned, down, up, up_signed};
pub use ratio::nearest;
pub use root::{greatest_root, root_up};
pub use sign::{magnitude, positive_part};
pub use wide::product;
