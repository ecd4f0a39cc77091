// The settings of a session, a route and a choice: the range of each, roles and their counterparts, modes and what they mean,
// states, sessions; and refusals as numbers (01, "Settings", "Modes" and "Answer numbers"). All of it is internal: the layers above call it.
#![tactic(auto)]

pub mod answers;
pub mod flags;
pub mod modes;
pub mod ranges;
pub mod roles;
pub mod sessions;
pub mod states;
