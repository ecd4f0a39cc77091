// What the internal form of receipt tells.

// What receipt tells of a block that it stored, and where the AS_PATH of the block received stands.
#[derive(Clone, Copy)]
pub struct Placed {
    pub length: usize,
    pub as_path: usize,
    pub thrown_out: usize,
    pub state: u8,
}
