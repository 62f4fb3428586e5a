// What judging and writing take of a sheet (document 01, "Filling in" and "Order"; document 02, S-1). The functions are
// in the crate `complete`.
use crate::sheet::{Anchors, Course, Site, Tank};

// What a complete sheet holds, with the height of its shell. Judging, writing and demand 3 take these, and nothing else of a sheet. An
// array and a count, since there is no heap.
#[derive(Clone, Copy, Debug, PartialEq, Eq)]
pub struct Entries {
    pub tank: Tank,
    pub site: Site,
    pub anchors: Anchors,
    pub courses: [Course; 12],
    pub count: usize,
    pub height: u32,
}
