// Numbers and words as text, in a buffer that the caller lends. Nothing here knows what they say.
#![tactic(auto)]

mod store;

pub use store::Text;
