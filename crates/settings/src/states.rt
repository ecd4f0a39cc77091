// Origin validation states (01, "Origin state"; source 000), as numbers like roles (decision 116).
pub const VALID: u8 = 0;

pub const NOT_FOUND: u8 = 1;

pub const INVALID: u8 = 2;

// Our mark for no state, never sent.
pub const UNAVAILABLE: u8 = 3;
