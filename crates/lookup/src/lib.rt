// The look-up in an index over a table of VRPs: a tree of prefixes in lent memory (02, Q-7). One code for both families.
#![tactic(auto)]

pub mod descent;
pub mod records;

ghost use Rattle.std.specs.Prelude.{◌≡◌, ◌/◌, ◌%◌};
ghost use Rattle.rules.specs.Origin.{prefix_in};
ghost use Rattle.rules.specs.Index.{LooksUp, told_looked_up};
ghost use Rattle.vrps.specs.Widths.{bits};
ghost use Rattle.vrp_tree.specs.Memory.{Holds};

use descent::look;
use octets::wide;
use records::NODE;
use rules::{LookedUp, Refusal, Words};
use vrps::family::Family;

// What a look-up has seen, as it is told: the state, and how many nodes it visited. Internal.
fn found(seen: usize) -> LookedUp
    ensures { (result.state ≡ seen % 4) × (result.visited ≡ seen / 4) }
{
    LookedUp {
        state: seen % NODE,
        visited: seen / NODE,
    }
}

// The state of the route prefix/len with this origin, 0 for none, by the table whose index the memory holds, and how many nodes the
// look-up visited. In any other memory it ends too.
pub fn look_up(
    family: Family,
    memory: &[u32],
    len: u8,
    prefix: Words,
    asn: u32,
) -> Result<LookedUp, Refusal>
    ensures { LooksUp Holds (bits family) memory.now (prefix_in (bits family) prefix) len asn (told_looked_up result) }
{
    let route_bits = wide(len);
    if family.bits < route_bits {
        return Err(Refusal::BadSetting);
    }
    Ok(found(look(memory, prefix, route_bits, asn)))
}
