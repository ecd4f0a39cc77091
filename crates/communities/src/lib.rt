// Extended communities (RFC 4360 section 2, RFC 8097): which are tags, which are dropped, what is left of a value, the state that
// tags tell, and how many are thrown out. All of it is internal: the layers above call it.
#![tactic(auto)]

pub mod findings;
pub mod left;
pub mod received;
pub mod tags;
