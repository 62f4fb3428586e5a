// Plate by either method (document 01; document 02, S-3) and wind, one module to a subject, a function to a figure;
// and the verdict of a check. A function asks that its fields are in range and that the figures handed to it are at
// most what the rules can give; nothing here knows of sheets. A clause for each figure, and no type of figures (specs/Range.antt of
// `fields` says why); what one formula takes stands as the document writes it.
#![tactic(auto)]

pub mod hoop;
pub mod method;
pub mod verdict;
pub mod wind;
