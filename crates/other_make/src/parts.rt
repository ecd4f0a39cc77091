// Our attributes looked up in the block that another make sent, in place: those of the block handed in as they go out, a new tag, and a
// new OTC. All of it is internal.
ghost use Rattle.std.specs.Prelude.{◌≡◌, true, not, cond, ◌&&◌, [], ◌∷◌, ◌++◌, ◌+◌, ◌≤◌, ◌<◌, ◌^◌, eqb, length, get_or};
ghost use Rattle.rules.specs.Bytes.{is_empty};
ghost use Rattle.rules.specs.Attributes.{attribute, attributes, readable, value_of, communities_type};
ghost use Rattle.rules.specs.Changes.{drop_from};
ghost use Rattle.rules.specs.OtherMake.{flags_apart};
ghost use Rattle.communities.specs.Tags.{drop_test, tag_bytes};
ghost use Rattle.communities.specs.declared.tags.Dropping.TheVariants.{AllTags};
ghost use Rattle.rewriting.specs.Plan.{turned, turned_all, new_tags, new_otcs, Whole};
ghost use Rattle.other_make.specs.Finding.{item_of, compared, looked_up, FindsFrom, AtMost, LeavesBytes, Counts};

use attributes::attribute_size;
use attributes::values::{COMMUNITIES, OTC, header_size, is_long};
use communities::left::same_left;
use communities::tags::Dropping;
use octets::buffer::bytes_of;
use octets::same_bytes;
use settings::states::INVALID;

// Flags, the long-length bit apart. Internal.
fn flags_apart(flags: u8) -> u8
    ensures { result ≡ flags_apart flags }
{
    if is_long(flags) { flags - 16 } else { flags }
}

// The first attribute of a type; no byte where there is none. Internal.
fn find(block: &[u8], kind: u8) -> &[u8]
    ensures { result.now ≡ item_of kind (attributes block.now) }
{
    let mut at = 0;
    while at < block.len() {
        let n = attribute_size(block, at);
        if n == 0 {
            return &block[0..0];
        }
        if block[at + 1] == kind {
            return &block[at..at + n];
        }
        at += n;
    }
    &block[0..0]
}

// Whether there is an attribute with these flags, the long-length bit apart. Internal.
fn same_flags(flags: u8, a: &[u8]) -> bool
    ensures { result ≡ (not (is_empty a.now) && eqb (flags_apart flags) (flags_apart (get_or a.now 0 0))) }
{
    if a.len() == 0 {
        return false;
    }
    flags_apart(flags) == flags_apart(a[0])
}

// The value of a whole attribute. Internal.
fn value_of(a: &[u8]) -> &[u8]
    requires { Whole a.now }
    ensures { result.now ≡ (attribute a.now).value }
{
    let h = header_size(a[0]);
    &a[h..]
}

// Whether an attribute of ours, by its type, flags and value, is found in the block sent. Internal.
fn look_up(kind: u8, flags: u8, v: &[u8], sent: &[u8]) -> bool
    ensures { result ≡ looked_up (attributes sent.now) (compared flags kind v.now) }
{
    let theirs = find(sent, kind);
    if !same_flags(flags, theirs) {
        return false;
    }
    same_bytes(v, value_of(theirs))
}

// The same of a communities attribute, whose value is what is left of some communities, and a tag. Internal.
fn look_up_left(flags: u8, v: &[u8], state: u8, sent: &[u8]) -> bool
    ensures { result ≡ looked_up (attributes sent.now) (compared flags communities_type (drop_from (drop_test AllTags) v.now ++ tag_bytes state)) }
{
    let theirs = find(sent, COMMUNITIES);
    if !same_flags(flags, theirs) {
        return false;
    }
    same_left(Dropping::AllTags, v, state, value_of(theirs))
}

// Those found so far, and with them one attribute of the block as it goes out, where `left` bytes of communities are left; none where it is
// missing. Internal.
fn turned_found(so_far: usize, a: &[u8], left: usize, state: u8, sent: &[u8]) -> Option<usize>
    requires { (Whole a.now) × (LeavesBytes left (attribute a.now)) × (so_far + 1 < 2 ^ 64) }
    ensures { (FindsFrom so_far (attributes sent.now) (turned (drop_test AllTags) state (attribute a.now)) result) × (AtMost (so_far + 1) result) }
{
    let kind = a[1];
    if kind != COMMUNITIES {
        return look_up(kind, a[0], value_of(a), sent).then_some(so_far + 1);
    }
    if left == 0 {
        return Some(so_far);
    }
    look_up_left(a[0], value_of(a), state, sent).then_some(so_far + 1)
}

// How many attributes a readable block has as it goes out, apart from new ones, where `left` bytes of communities are left and all are found;
// none where one is missing. Internal.
pub fn all_turned_found(block: &[u8], left: usize, state: u8, sent: &[u8]) -> Option<usize>
    requires { (readable block.now ≡ true) × (left ≡ length (drop_from (drop_test AllTags) (value_of communities_type (attributes block.now)))) }
    ensures { (FindsFrom 0 (attributes sent.now) (turned_all (drop_test AllTags) state (attributes block.now)) result) × (AtMost (length block.now) result) }
{
    let mut at = 0;
    let mut so_far = 0;
    while at < block.len() {
        let n = attribute_size(block, at);
        so_far = turned_found(so_far, &block[at..at + n], left, state, sent)?;
        at += n;
    }
    Some(so_far)
}

// The same of a new tag attribute, where no community is left and there is a state to tell. Internal.
pub fn new_tag_found(so_far: usize, flags: u8, left: usize, state: u8, sent: &[u8]) -> Option<usize>
    requires { so_far + 1 < 2 ^ 64 }
    ensures { (FindsFrom so_far (attributes sent.now) (new_tags flags left state) result) × (AtMost (so_far + 1) result) }
{
    if left != 0 {
        return Some(so_far);
    }
    if INVALID < state {
        return Some(so_far);
    }
    look_up_left(flags, &[], state, sent).then_some(so_far + 1)
}

// The same of a new OTC, where there is an AS to name. Internal.
pub fn new_otc_found(so_far: usize, flags: u8, asn: Option<u32>, sent: &[u8]) -> Option<usize>
    requires { so_far + 1 < 2 ^ 64 }
    ensures { FindsFrom so_far (attributes sent.now) (new_otcs flags asn) result }
{
    let Some(asn) = asn else {
        return Some(so_far);
    };
    let bytes = bytes_of(asn);
    look_up(OTC, flags, &bytes, sent).then_some(so_far + 1)
}

// How many attributes a block has; none where it has an overrun.
pub fn count(block: &[u8]) -> Option<usize>
    ensures { Counts block.now result }
{
    let mut at = 0;
    let mut passed = 0;
    while at < block.len() {
        let n = attribute_size(block, at);
        if n == 0 {
            return None;
        }
        passed += 1;
        at += n;
    }
    Some(passed)
}
