// The comparison keys of a candidate, and the order of routes by them (01, "Choosing a route"; RFC 4271 section 9.1.2.2).
ghost use Rattle.std.specs.Prelude.{◌≡◌};
ghost use Rattle.rules.specs.Choice.{before};
ghost use Rattle.choice.specs.Keys.{Reads, keys_in, listed};

use as_path::path_length;
use attributes::layout::Layout;
use attributes::value;

// What a candidate has beside its block: its state, and the sender's identifier and address.
#[derive(Clone, Copy)]
pub struct Sender {
    pub state: u8,
    pub identifier: u32,
    pub address: u32,
}

// The keys in their order, by which routes are ordered, each as wide as an address: such a struct comes back without being packed and taken
// apart again.
#[derive(Clone, Copy, PartialEq, Eq, PartialOrd, Ord)]
pub struct Keys {
    pub path: usize,
    pub origin: usize,
    pub identifier: usize,
    pub address: usize,
}

// The keys of a candidate whose block reads cleanly, by where its attributes are. Internal.
pub fn keys_of(block: &[u8], layout: Layout, identifier: u32, address: u32) -> Keys
    requires { Reads block.now layout }
    ensures { result ≡ keys_in block.now identifier address }
{
    Keys {
        path: path_length(value(block, layout.as_path)),
        origin: attributes::origin(value(block, layout.origin)) as usize,
        identifier: identifier as usize,
        address: address as usize,
    }
}

// Whether x goes before y: shortest path, lowest ORIGIN, lowest identifier, lowest address.
pub fn goes_before(x: Keys, y: Keys) -> bool
    ensures { result ≡ before (listed x) (listed y) }
{
    x < y
}
