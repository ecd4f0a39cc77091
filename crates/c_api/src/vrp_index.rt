// The index over a table of VRPs (02, Q-7): its build, one record more, and the look-up, for both families. Memory is numbers of 32 bits.
ghost use Rattle.std.specs.Prelude.{◌+◌, ◌*◌, ◌^◌};
ghost use Rattle.rules.specs.Origin.{ipv4, ipv6};
ghost use Rattle.rules.specs.Index.{Builds, Inserts, LooksUp};
ghost use Rattle.vrp_tree.specs.Memory.{Holds};
ghost use Rattle.c_api.specs.Numbers.{ReportedIndex, ReportedLookUp};

use answers::{report, report_looked_up};
use vrps::family::Family;
use vrps::prefixes::{words4, words6};

// The index of an IPv4 table.
#[unsafe(no_mangle)]
pub extern "C" fn bgp_index_build(table: &[u8], memory: &mut [u32], beside: &mut usize) -> u8
    ensures { ReportedIndex (Builds Holds ipv4 table.now memory.old) result beside.new memory.new }
{
    report(build::build(Family::ipv4(), table, memory), beside)
}

// The index of an IPv6 table.
#[unsafe(no_mangle)]
pub extern "C" fn bgp_index_build6(table: &[u8], memory: &mut [u32], beside: &mut usize) -> u8
    ensures { ReportedIndex (Builds Holds ipv6 table.now memory.old) result beside.new memory.new }
{
    report(build::build(Family::ipv6(), table, memory), beside)
}

// One record more at the end of an IPv4 table, of which the caller says how many records it has and how many nodes its index.
#[unsafe(no_mangle)]
pub extern "C" fn bgp_index_insert(
    added: &[u8],
    memory: &mut [u32],
    records: usize,
    nodes: usize,
    beside: &mut usize,
) -> u8
    ensures { ReportedIndex (Inserts Holds ipv4 added.now memory.old records nodes) result beside.new memory.new }
{
    let answer = index::insert(Family::ipv4(), added, memory, records, nodes);
    report(answer, beside)
}

// One record more at the end of an IPv6 table.
#[unsafe(no_mangle)]
pub extern "C" fn bgp_index_insert6(
    added: &[u8],
    memory: &mut [u32],
    records: usize,
    nodes: usize,
    beside: &mut usize,
) -> u8
    ensures { ReportedIndex (Inserts Holds ipv6 added.now memory.old records nodes) result beside.new memory.new }
{
    let answer = index::insert(Family::ipv6(), added, memory, records, nodes);
    report(answer, beside)
}

// The state of an IPv4 route by an index, and how many nodes the look-up visited.
#[unsafe(no_mangle)]
pub extern "C" fn bgp_index_look_up(
    memory: &[u32],
    prefix_length: u8,
    prefix: u32,
    origin: u32,
    beside: &mut usize,
    visited: &mut usize,
) -> u8
    ensures { ReportedLookUp (LooksUp Holds ipv4 memory.now prefix prefix_length origin) result beside.new visited.new }
{
    let words = words4(prefix);
    let answer = lookup::look_up(Family::ipv4(), memory, prefix_length, words, origin);
    report_looked_up(answer, beside, visited)
}

// The state of an IPv6 route by an index; the prefix is two numbers, that of its first eight bytes and that of its last.
#[unsafe(no_mangle)]
pub extern "C" fn bgp_index_look_up6(
    memory: &[u32],
    prefix_length: u8,
    prefix_high: u64,
    prefix_low: u64,
    origin: u32,
    beside: &mut usize,
    visited: &mut usize,
) -> u8
    ensures { ReportedLookUp (LooksUp Holds ipv6 memory.now (prefix_high * 2 ^ 64 + prefix_low) prefix_length origin) result beside.new visited.new }
{
    let prefix = words6(prefix_high, prefix_low);
    let answer = lookup::look_up(Family::ipv6(), memory, prefix_length, prefix, origin);
    report_looked_up(answer, beside, visited)
}
