// What reading a block finds.

// Where attributes begin, counted in bytes from the start of the block; the block's length where there is none. The last two
// are where a new tag attribute and a new OTC would go. A place and no `Option`: what is absent is the empty part at the block's end, and a new
// attribute goes there too.
#[derive(Clone, Copy)]
pub struct Layout {
    pub origin: usize,
    pub as_path: usize,
    pub communities: usize,
    pub otc: usize,
    pub new_tag: usize,
    pub new_otc: usize,
}
