// Judging a sheet: the report, or one refusal. A sheet goes in by value, the answer and the report come
// back by value; nothing here knows bytes or text.
#![tactic(auto)]

mod courses;
pub mod judging;
mod standing;
