// The plan for a block, and what storing it tells.

use communities::tags::Dropping;

// What is planned for a block before any byte of it is stored: where its communities attribute begins and what follows it
// begins (the block's length where there is none), how many bytes of communities are left, where a new tag and a new OTC would
// go, how many bytes go out, which communities are dropped, the flags of new attributes, the state that a tag tells (3: no tag), and
// the AS that a new OTC names, if any.
#[derive(Clone, Copy)]
pub struct Plan {
    pub communities: usize,
    pub rest: usize,
    pub left: usize,
    pub new_tag: usize,
    pub new_otc: usize,
    pub size: usize,
    pub dropping: Dropping,
    pub flags: u8,
    pub tag: u8,
    pub otc: Option<u32>,
}

// What storing a block tells: how many bytes were stored, and how many tags of the block are thrown out.
#[derive(Clone, Copy)]
pub struct Written {
    pub length: usize,
    pub thrown_out: usize,
}
