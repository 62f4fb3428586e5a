// Shell compression at the bottom course (document 02, S-6 and S-8): a question of its own about a sheet, on which its report
// does not depend.
#![tactic(auto)]

mod question;

pub use question::{Stresses, shell_compression};
