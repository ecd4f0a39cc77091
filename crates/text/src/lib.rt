// Text: hex and decimal (01, "The desk program"). All of it is internal: the machines of programs call it.
#![tactic(auto)]

pub mod decimal;
pub mod hex;
