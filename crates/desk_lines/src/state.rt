// The desk's byte machine between calls.
use desk_memory::kept::Kept;

// How many lines have ended, how many bytes are held of the one that has begun, how many bytes of `out` are written, and what the
// desk keeps.
#[derive(Clone, Copy)]
pub struct State {
    pub number: u64,
    pub held: usize,
    pub wrote: usize,
    pub kept: Kept,
}

// What feeding gives: how many bytes of the piece were taken, and the state after them.
#[derive(Clone, Copy)]
pub struct Progress {
    pub taken: usize,
    pub state: State,
}
