// What the test for 30 asks of a sheet's parts: of its courses and slots, and of its tank, site and anchors
// beside a number of courses. Which sheets pass, and why exactly those, stands in `sheet`.
#![tactic(auto)]

pub mod slots;
pub mod stated;
