// Frames of each kind, the bytes of a readable line, answered (01, "The desk program"; 02, Q-1). All of it is internal: the layer that
// tells kinds apart calls it.
#![tactic(auto)]

pub mod kinds;
pub mod reply;
pub mod sizes;
