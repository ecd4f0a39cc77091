// The records at a node on a route's prefix: whether one matches the route, of `len` bits and with the origin `asn` (02, Q-7).
ghost use Rattle.std.specs.Prelude.{◌≡◌, ◌/◌, ◌<◌, length};
ghost use Rattle.lookup.specs.Look.{allowed, chain_of, noted_of};

use settings::states::{INVALID, VALID};
use vrp_tree::{TRIPLE, index_of};

// What a look-up has seen is one number, for speed: this for each node visited, and the state, which is less.
pub const NODE: usize = 4;

// Whether a record at a node on the route's prefix matches: the maximum allows the route's length, and the ASNs are equal and not 0.
// Internal.
fn allows(len: usize, asn: u32, most: usize, owner: u32) -> bool
    ensures { result ≡ allowed len asn most owner }
{
    let longer = most < len;
    if longer {
        return false;
    }
    if owner == 0 {
        return false;
    }
    owner == asn
}

// The state after the records at a node, from its last on: valid if one matches, else invalid if there is one. No more are read
// than there are triples. Internal.
fn chain(memory: &[u32], head: usize, len: usize, asn: u32, state: usize) -> usize
    requires { state < 4 }
    ensures { (result ≡ chain_of memory.now len asn (length memory.now / 3) head state) × (result < 4) }
{
    let triples = memory.len() / TRIPLE;
    let mut cur = head;
    let mut met = state;
    for _ in 0..triples {
        if cur == 0 {
            return met;
        }
        if triples < cur {
            return met;
        }
        let at = (triples - cur) * TRIPLE;
        if allows(len, asn, index_of(memory[at + 1]), memory[at + 2]) {
            return VALID as usize;
        }
        cur = index_of(memory[at]);
        met = INVALID as usize;
    }
    met
}

// One node more, with its last record: it is counted, also where it has no record, or where the state is valid already. Internal.
pub fn note(memory: &[u32], head: usize, len: usize, asn: u32, seen: usize) -> usize
    requires { seen / 4 < 200 }
    ensures { result ≡ noted_of memory.now len asn head seen }
{
    let counted = seen + NODE;
    if head == 0 {
        return counted;
    }
    let state = seen % NODE;
    if state == VALID as usize {
        return counted;
    }
    counted - state + chain(memory, head, len, asn, state)
}
