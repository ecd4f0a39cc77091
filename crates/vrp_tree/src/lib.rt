// The tree of the prefixes of a table of VRPs, in lent memory: triples of numbers, nodes from the front and records from the back (02, Q-7).
// What it looks like is in specs/Memory.antt; `index` and `build` write it, `lookup` reads it. Numbers and no boxes: the caller, often C, lends the
// memory, and nothing is allocated.
#![tactic(auto)]

ghost use Rattle.std.specs.Prelude.{◌≡◌, ◌<◌};
ghost use Rattle.vrp_tree.specs.Memory.{values};

// The numbers of a node, and of a record.
pub const TRIPLE: usize = 3;

// A number of the memory as an index. Internal.
pub fn index_of(x: u32) -> usize
    ensures { (result ≡ x) × (result < values) }
{
    x as usize
}
