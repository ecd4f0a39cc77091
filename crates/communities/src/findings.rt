// What walks over the communities of a value find.

// How many bytes of communities are left once some are dropped, and how many tags are thrown out (02, Q-8).
#[derive(Clone, Copy)]
pub struct Sifted {
    pub left: usize,
    pub thrown_out: usize,
}

// The state that the tags tell, and how many are thrown out.
#[derive(Clone, Copy)]
pub struct Tags {
    pub state: u8,
    pub thrown_out: usize,
}
