// The plan for a block: which bytes go out, and how many, before the first is stored. All of it is internal.
ghost use Rattle.std.specs.Prelude.{◌≡◌, None, cond, ℕ, ◌+◌, ◌≤◌, ltb, length};
ghost use Rattle.rules.specs.Settings.{block_max};
ghost use Rattle.rewriting.specs.Plan.{new_tag_bytes, new_otc_bytes, Planned, ReadBlock, LeftIn, Sizing, TurnedSize};

use super::attribute::community_size;
use super::plan::Plan;
use attributes::attribute_size;
use attributes::layout::Layout;
use communities::tags::Dropping;
use settings::states::INVALID;

// The sizes of a new tag attribute and of a new OTC.
const NEW_TAG_SIZE: usize = 11;

const NEW_OTC_SIZE: usize = 7;

// The AS that a new OTC names: none where the block has an OTC, which begins before its end. Internal.
pub fn otc_to_add(place: usize, len: usize, asn: Option<u32>) -> Option<u32>
    ensures { result ≡ cond (ltb place len) None asn }
{
    if place < len { None } else { asn }
}

// How many bytes a new tag attribute has. Internal.
fn new_tag_size(left: usize, state: u8) -> usize
    ensures { ((flags : ℕ) → result ≡ length (new_tag_bytes flags left state)) × (result ≤ 11) }
{
    if left != 0 {
        return 0;
    }
    if INVALID < state {
        return 0;
    }
    NEW_TAG_SIZE
}

// How many bytes a new OTC has. Internal.
fn new_otc_size(asn: Option<u32>) -> usize
    ensures { ((flags : ℕ) → result ≡ length (new_otc_bytes flags asn)) × (result ≤ 7) }
{
    match asn {
        Some(_) => NEW_OTC_SIZE,
        None => 0,
    }
}

// How many bytes the attributes of a block have as they go out, whatever is dropped: its communities attribute is k bytes at a
// place, and `left` bytes of communities are left. Internal.
fn turned_size(block: &[u8], at: usize, k: usize, left: usize, state: u8) -> usize
    requires { Sizing block.now at k left }
    ensures { (TurnedSize block.now at k left state result) × (result ≤ block_max + 12) }
{
    if k == 0 {
        return block.len();
    }
    let size = community_size(&block[at..at + k], left, state);
    block.len() - k + size
}

// The plan for a block that has been read: how many bytes of its communities are left, which are dropped, the flags of new attributes, the
// state of a tag (3: none) and the AS of an OTC, if any. Internal.
pub fn make_plan(
    block: &[u8],
    layout: Layout,
    left: usize,
    dropping: Dropping,
    flags: u8,
    state: u8,
    asn: Option<u32>,
) -> Plan
    requires { (ReadBlock block.now layout) × (LeftIn block.now layout dropping left) }
    ensures { Planned block.now dropping flags state asn result }
{
    let communities = layout.communities;
    let k = attribute_size(block, communities);
    let otc = otc_to_add(layout.otc, block.len(), asn);
    let tag_size = new_tag_size(left, state);
    let otc_size = new_otc_size(otc);
    let size = turned_size(block, communities, k, left, state) + tag_size + otc_size;
    Plan {
        communities,
        rest: communities + k,
        left,
        new_tag: layout.new_tag,
        new_otc: layout.new_otc,
        size,
        dropping,
        flags,
        tag: state,
        otc,
    }
}
