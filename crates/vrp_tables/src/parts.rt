// A table kept in parts of 1,024 records (02, Q-1). All parts before the last that has a record are full.
ghost use Rattle.std.specs.Prelude.{◌≡◌};
ghost use Rattle.rules.specs.Origin.{prefix_in, vrps, state_in, told_origin};
ghost use Rattle.vrps.specs.Widths.{bits};
ghost use Rattle.vrp_tables.specs.Scan.{GoodTable};

use super::scan;
use rules::Words;
use settings::states::{NOT_FOUND, VALID};
use vrps::family::Family;

// The records of a full part.
pub const PART_RECORDS: usize = 1024;

// The state of the route prefix/len with this origin, over the parts of a table with no bad record, each scanned by itself: valid if
// some part says valid, else invalid if some part does, else not found. Internal.
pub fn scan_parts(family: Family, table: &[u8], prefix: Words, len: u8, origin: Option<u32>) -> u8
    requires { GoodTable (bits family) table.now }
    ensures { result ≡ state_in (bits family) (vrps (bits family) table.now) (prefix_in (bits family) prefix) len (told_origin origin) }
{
    let full = PART_RECORDS * family.record_size();
    let mut found = NOT_FOUND;
    for part in table.chunks(full) {
        let state = scan(family, part, prefix, len, origin);
        if state == VALID {
            return VALID;
        }
        if state != NOT_FOUND {
            found = state;
        }
    }
    found
}
