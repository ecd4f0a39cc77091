// The build of an index over a table of VRPs: record after record, in the table's order (02, Q-7). One code for both families.
#![tactic(auto)]

ghost use Rattle.std.specs.Prelude.{◌≤◌, length};
ghost use Rattle.rules.specs.Answers.{told};
ghost use Rattle.rules.specs.Settings.{vrps_max};
ghost use Rattle.rules.specs.Origin.{vrps};
ghost use Rattle.rules.specs.Index.{Builds};
ghost use Rattle.vrps.specs.Widths.{bits};
ghost use Rattle.vrp_tables.specs.Scan.{GoodTable};
ghost use Rattle.vrp_tree.specs.Memory.{Holds};
ghost use Rattle.build.specs.Filling.{Filled};

use index::placing::put;
use rules::Refusal;
use vrp_tables::check_table;
use vrp_tree::TRIPLE;
use vrps::family::Family;

// The index of a table with no bad record: how many nodes it has, or none where there is no room for it. Internal.
fn fill(family: Family, memory: &mut [u32], table: &[u8]) -> Option<usize>
    requires { (GoodTable (bits family) table.now) × (length (vrps (bits family) table.now) ≤ vrps_max) }
    ensures { Filled (bits family) table.now memory.old memory.new result }
{
    if memory.len() < TRIPLE {
        return None;
    }
    // the root
    memory[0] = 0;
    memory[1] = 0;
    memory[2] = 0;
    let mut nodes = 1;
    for (index, record) in table.chunks_exact(family.record_size()).enumerate() {
        nodes = put(family, memory, record, index, nodes)?;
    }
    Some(nodes)
}

// The index of a table, into lent memory: how many nodes it has. On 7 the memory is all zeros, on 6 and 9 it is as it was.
pub fn build(family: Family, table: &[u8], memory: &mut [u32]) -> Result<usize, Refusal>
    ensures { Builds Holds (bits family) table.now memory.old (told result) memory.new }
{
    check_table(family, table)?;
    let Some(nodes) = fill(family, memory, table) else {
        memory.fill(0);
        return Err(Refusal::NoRoom);
    };
    Ok(nodes)
}
