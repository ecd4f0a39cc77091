// The look-up: down one bit of the prefix at a time until no node is left (02, Q-7). What it has seen is one number, `NODE` for each node
// visited and the state, and not a struct of two: a number less to hand down makes the look-up faster.
ghost use Rattle.std.specs.Prelude.{◌≡◌, ◌+◌, ◌-◌, ◌*◌, ◌/◌, ◌%◌, ◌^◌, ◌<◌, ◌≤◌};
ghost use Rattle.vrp_tree.specs.Tree.{leading_bits};
ghost use Rattle.vrp_tree.specs.Memory.{values};
ghost use Rattle.lookup.specs.Look.{look_of};
ghost use Rattle.lookup.specs.Descent.{Ready, Stepped, Descended, Arrived};

use super::records::note;
use rules::Words;
use settings::states::NOT_FOUND;
use vrp_tree::{TRIPLE, index_of};
use vrps::prefixes::octet;

// The bits of an octet.
const OCTET: usize = 8;

// Where a look-up stands: a node, 0 where none is left, as the memory has it, and what it has seen.
#[derive(Clone, Copy)]
struct Place {
    node: usize,
    seen: usize,
}

// One bit down, that of an octet with `rest` bits after it. Internal.
fn step(
    memory: &[u32],
    octet: u32,
    rest: usize,
    node: usize,
    len: usize,
    asn: u32,
    seen: usize,
) -> Place
    requires { (rest < 8) × Ready node seen }
    ensures { Stepped memory.now len asn (octet / 2 ^ rest % 2) node seen result.node result.seen }
{
    if memory.len() < node * TRIPLE {
        return Place { node: 0, seen };
    }
    let at = (node - 1) * TRIPLE;
    let b = index_of((octet >> rest) % 2);
    Place {
        node: index_of(memory[at + b]),
        seen: note(memory, index_of(memory[at + 2]), len, asn, seen),
    }
}

// The bits of an octet, as many as are left. Internal.
fn octet_down(
    memory: &[u32],
    octet: u32,
    left: usize,
    node: usize,
    len: usize,
    asn: u32,
    seen: usize,
) -> Place
    requires { Ready node (seen + 4 * left) }
    ensures { Descended memory.now len asn octet left node seen (left - 8) result.node result.seen }
{
    let mut here = node;
    let mut so_far = seen;
    for k in 0..OCTET {
        if left <= k {
            return Place {
                node: here,
                seen: so_far,
            };
        }
        let below = step(memory, octet, OCTET - 1 - k, here, len, asn, so_far);
        if below.node == 0 {
            return below;
        }
        here = below.node;
        so_far = below.seen;
    }
    Place {
        node: here,
        seen: so_far,
    }
}

// The node of the route's whole prefix, where there is one. Internal.
fn arrive(memory: &[u32], node: usize, len: usize, asn: u32, seen: usize) -> usize
    requires { (node < values) × (seen / 4 < 200) }
    ensures { Arrived memory.now len asn node seen result }
{
    if node == 0 {
        return seen;
    }
    if memory.len() < node * TRIPLE {
        return seen;
    }
    note(
        memory,
        index_of(memory[(node - 1) * TRIPLE + 2]),
        len,
        asn,
        seen,
    )
}

// All bits left of the prefix, an octet to each call: a slice that is handed down is copied at every call. Internal.
fn down(
    memory: &[u32],
    prefix: Words,
    left: usize,
    node: usize,
    len: usize,
    asn: u32,
    seen: usize,
) -> usize
    requires { (left ≤ len) × (len ≤ 128) × ((len - left) % 8 ≡ 0) × Ready node (seen + 4 * left) }
    ensures { result ≡ look_of memory.now len asn left (leading_bits prefix len) node seen }
{
    if left == 0 {
        return arrive(memory, node, len, asn, seen);
    }
    let next = octet_down(
        memory,
        octet(prefix, (len - left) / OCTET),
        left,
        node,
        len,
        asn,
        seen,
    );
    if next.node == 0 {
        return next.seen;
    }
    if left <= OCTET {
        return arrive(memory, next.node, len, asn, next.seen);
    }
    down(memory, prefix, left - OCTET, next.node, len, asn, next.seen)
}

// The look-up of the route prefix/len, from the root on and with nothing seen: no node, and the state not found. Internal.
pub fn look(memory: &[u32], prefix: Words, len: usize, asn: u32) -> usize
    requires { len ≤ 128 }
    ensures { result ≡ look_of memory.now len asn len (leading_bits prefix len) 1 1 }
{
    down(memory, prefix, len, 1, len, asn, NOT_FOUND as usize)
}
