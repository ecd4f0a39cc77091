// The table of VRPs: records one after the other, at most 4,096 (01, "Origin state" and "Sizes"). One code for both families.
#![tactic(auto)]

pub mod parts;

ghost use Rattle.std.specs.Prelude.{◌≡◌, ◌%◌, length};
ghost use Rattle.rules.specs.Answers.{told};
ghost use Rattle.rules.specs.Bytes.{first_index};
ghost use Rattle.rules.specs.Origin.{bad_vrp, prefix_in, vrp_size, vrps, state_in, told_origin};
ghost use Rattle.vrps.specs.Widths.{bits};
ghost use Rattle.vrp_tables.specs.Scan.{GoodTable};
ghost use Rattle.vrp_tables.specs.Table.{table_check};

use rules::{Refusal, VRPS_MAX, Words};
use settings::states::{INVALID, NOT_FOUND, VALID};
use vrps::family::Family;
use vrps::{Weight, bad_vrp, weigh};

// The index of the first bad record in a table of whole records, or how many records there are where none is bad. It answers a number and
// not a refusal: a refusal's parts set at each turn made the loop twice as slow. Internal.
fn first_bad(family: Family, table: &[u8]) -> usize
    requires { length table.now % vrp_size (bits family) ≡ 0 }
    ensures { result ≡ first_index (bad_vrp (bits family)) (vrps (bits family) table.now) }
{
    let size = family.record_size();
    for (index, record) in table.chunks_exact(size).enumerate() {
        if bad_vrp(family.bits, record) {
            return index;
        }
    }
    table.len() / size
}

// Checks a table: its length, then each record up to the first bad one. It answers how many records there are. Internal.
pub fn check_table(family: Family, table: &[u8]) -> Result<usize, Refusal>
    ensures { told result ≡ table_check (bits family) table.now }
{
    let size = family.record_size();
    if table.len() % size != 0 {
        return Err(Refusal::BadLength);
    }
    if size * VRPS_MAX < table.len() {
        return Err(Refusal::BadLength);
    }
    let count = table.len() / size;
    let bad = first_bad(family, table);
    if bad < count {
        return Err(Refusal::BadVrp(bad));
    }
    Ok(count)
}

// The state of the route prefix/len with this origin, by a table with no bad record. The scan stops at the first VRP that
// matches; whether one has covered so far is carried along. Internal.
pub fn scan(family: Family, table: &[u8], prefix: Words, len: u8, origin: Option<u32>) -> u8
    requires { GoodTable (bits family) table.now }
    ensures { result ≡ state_in (bits family) (vrps (bits family) table.now) (prefix_in (bits family) prefix) len (told_origin origin) }
{
    let mut records = table.chunks_exact(family.record_size());
    let mut covered = false;
    let state = loop {
        let Some(record) = records.next() else {
            break if covered { INVALID } else { NOT_FOUND };
        };
        let met = weigh(family, record, prefix, len, origin);
        match met {
            Weight::Matches => break VALID,
            Weight::Covers => covered = true,
            Weight::Apart => {}
        }
    };
    state
}
