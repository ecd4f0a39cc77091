// One record more in the index: the way to its node as far as it is there, the nodes that are not, and its triple (02, Q-7).
ghost use Rattle.std.specs.Prelude.{◌≡◌, ◌+◌, ◌-◌, ◌*◌, ◌/◌, ◌^◌, ◌<◌, ◌≤◌, length};
ghost use Rattle.rules.specs.Origin.{vrp_size, vrp};
ghost use Rattle.vrps.specs.Widths.{bits};
ghost use Rattle.vrps.specs.Weighing.{Good};
ghost use Rattle.vrp_tree.specs.Tree.{leading_bits};
ghost use Rattle.vrp_tree.specs.Memory.{node_at, values};
ghost use Rattle.index.specs.Steps.{nodes_max, Reach, Grown, Extended, stored_at, Puts};

use octets::{number4_at, wide};
use rules::{VRPS_MAX, Words};
use vrp_tree::{TRIPLE, index_of};
use vrps::family::Family;
use vrps::prefixes::{bit, words};

// The nodes that an index has at most: for each of 4,096 records one to each of 128 bits, and the root.
const NODES_MAX: usize = 524289;

// A number that the memory has room for. Internal.
fn narrow(x: usize) -> u32
    requires { x < values }
    ensures { result ≡ x }
{
    x as u32
}

// The child of a node for a bit. Internal.
fn child(memory: &[u32], node: usize, b: usize) -> usize
    requires { (0 < node) × (node * 3 ≤ length memory.now) × (b < 2) }
    ensures { result ≡ node_at memory.now node b }
{
    let at = (node - 1) * TRIPLE;
    index_of(memory[at + b])
}

// The last node on the way of a prefix, and how many of its bits are left there.
#[derive(Clone, Copy)]
struct Way {
    node: usize,
    left: usize,
}

// Goes down the bits of a prefix from the root, as far as there are nodes. Internal.
fn reach(memory: &[u32], prefix: Words, len: usize, nodes: usize) -> Way
    requires { (len ≤ 128) × (0 < nodes) × (nodes * 3 ≤ length memory.now) }
    ensures { Reach memory.now (2 ^ len + leading_bits prefix len) len nodes result.node result.left }
{
    let mut node = 1;
    for i in 0..len {
        let next = child(memory, node, bit(prefix, i));
        if next == 0 {
            return Way {
                node,
                left: len - i,
            };
        }
        if nodes < next {
            return Way {
                node,
                left: len - i,
            };
        }
        node = next;
    }
    Way { node, left: 0 }
}

// One node more, as the child of a node for a bit. Internal.
fn grow(memory: &mut [u32], nodes: usize, node: usize, b: usize)
    requires { (0 < node) × (node ≤ nodes) × ((nodes + 1) * 3 ≤ length memory.old) × (b < 2) × (nodes + 1 < values) }
    ensures { Grown memory.old nodes (node - 1) b memory.new }
{
    let at = nodes * TRIPLE;
    let from = (node - 1) * TRIPLE;
    memory[at] = 0;
    memory[at + 1] = 0;
    memory[at + 2] = 0;
    memory[from + b] = narrow(nodes + 1);
}

// The nodes for the last `left` bits of a prefix, below the node of the bits before them: the prefix's own node. Internal.
fn extend(
    memory: &mut [u32],
    prefix: Words,
    len: usize,
    left: usize,
    node: usize,
    nodes: usize,
) -> usize
    requires { (left ≤ len) × (len ≤ 128) × (0 < node) × (node ≤ nodes) × (nodes ≤ nodes_max) × ((nodes + left) * 3 ≤ length memory.old) }
    ensures { Extended memory.old (2 ^ len + leading_bits prefix len) left node nodes memory.new result }
{
    let mut last = node;
    for made in 0..left {
        grow(memory, nodes + made, last, bit(prefix, len - (left - made)));
        last = nodes + made + 1;
    }
    last
}

// The triple of a record, which becomes the last at a node. Internal.
fn store(memory: &mut [u32], cap: usize, node: usize, most: u32, asn: u32, name: u32)
    requires { (0 < node) × (node ≤ cap) × (cap * 3 + 3 ≤ length memory.old) }
    ensures { memory.new ≡ stored_at memory.old cap node most asn name }
{
    let at = cap * TRIPLE;
    let head = (node - 1) * TRIPLE;
    let last = memory[head + 2];
    memory[at] = last;
    memory[at + 1] = most;
    memory[at + 2] = asn;
    memory[head + 2] = name;
}

// A record that is not bad, into memory that holds the index of `records` records with `nodes` nodes: how many nodes it has then, or
// none where there is no room. What it needs is known before anything is stored. Internal.
pub fn put(
    family: Family,
    memory: &mut [u32],
    bytes: &[u8],
    records: usize,
    nodes: usize,
) -> Option<usize>
    requires { (length bytes.now ≡ vrp_size (bits family)) × Good (bits family) bytes.now }
    ensures { Puts (bits family) (vrp (bits family) bytes.now) memory.old records nodes memory.new result }
{
    let triples = memory.len() / TRIPLE;
    if VRPS_MAX <= records {
        return None;
    }
    if triples <= records {
        return None;
    }
    let cap = triples - 1 - records;
    if cap < nodes {
        return None;
    }
    if nodes == 0 {
        return None;
    }
    if NODES_MAX < nodes {
        return None;
    }
    let at = family.octets();
    let prefix = words(&bytes[..at]);
    let len = wide(bytes[at]);
    let way = reach(memory, prefix, len, nodes);
    if cap - nodes < way.left {
        return None;
    }
    let node = extend(memory, prefix, len, way.left, way.node, nodes);
    let most = bytes[at + 1] as u32;
    let asn = number4_at(bytes, at + 2);
    store(memory, cap, node, most, asn, narrow(records + 1));
    Some(nodes + way.left)
}
