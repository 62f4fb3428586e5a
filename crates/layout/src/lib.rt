// The byte layout of a sheet, both ways: numbers at places, the tests before any step, and the stores. A
// sheet's bytes are a prefix (length, version, tank) and a tail that is addressed from its own start.
// Nothing here knows steps.
#![tactic(auto)]

pub mod reading;
pub mod version;
pub mod writing;
