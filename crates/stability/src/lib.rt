// How a tank stands, by document 01 and S-5 and S-8 of document 02: earthquake overturning, anchors, and wind on a tank
// without them; a function to a figure. As in `rules`, a function asks for ranges and bounds; nothing here knows of
// sheets. Weight and vertical acceleration, of two entries, go together into three functions (one in `buckling`), each called in
// another place, so no struct is made of them.
#![tactic(auto)]

pub mod anchors;
pub mod earthquake;
