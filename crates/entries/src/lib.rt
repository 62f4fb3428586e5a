// What a check sheet is made of: its entries and the sheet that holds them. Nothing here knows bytes, steps or rules.
#![tactic(auto)]

mod complete;
mod sheet;

pub use complete::Entries;
pub use sheet::{Anchors, Course, Entry, MOST_COURSES, MOST_HEIGHT, Sheet, Site, Tank};
