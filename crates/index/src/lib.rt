// One record more in an index over a table of VRPs: a tree of prefixes in lent memory (02, Q-7). One code for both families.
#![tactic(auto)]

pub mod placing;

ghost use Rattle.rules.specs.Answers.{told};
ghost use Rattle.rules.specs.Index.{Inserts};
ghost use Rattle.vrps.specs.Widths.{bits};
ghost use Rattle.vrp_tree.specs.Memory.{Holds};

use placing::put;
use rules::{Refusal, VRPS_MAX};
use vrps::bad_vrp;
use vrps::family::Family;

// One record more, in memory that holds the index of a table of `records` records with `nodes` nodes: the index comes to hold the
// table with the record at its end. It answers how many nodes there are then. A refusal leaves the memory as it was.
pub fn insert(
    family: Family,
    added: &[u8],
    memory: &mut [u32],
    records: usize,
    nodes: usize,
) -> Result<usize, Refusal>
    ensures { Inserts Holds (bits family) added.now memory.old records nodes (told result) memory.new }
{
    if added.len() != family.record_size() {
        return Err(Refusal::BadLength);
    }
    if VRPS_MAX <= records {
        return Err(Refusal::BadLength);
    }
    if bad_vrp(family.bits, added) {
        return Err(Refusal::BadVrp(records));
    }
    put(family, memory, added, records, nodes).ok_or(Refusal::NoRoom)
}
