// Another make's block held against ours (02, Q-12; RFC 9234 section 5, egress): the checks and the verdict of sending, and then our attributes
// looked up in the block that it sent. There is no buffer, and nothing is copied.
#![tactic(auto)]

pub mod parts;

ghost use Rattle.std.specs.Prelude.{◌≡◌, false};
ghost use Rattle.rules.specs.Attributes.{attributes, long};
ghost use Rattle.rules.specs.OtherMake.{allowed, told_sent_check};
ghost use Rattle.communities.specs.declared.tags.Dropping.TheVariants.{AllTags};
ghost use Rattle.rewriting.specs.Plan.{outgoing, ReadBlock, LeftIn};
ghost use Rattle.other_make.specs.Finding.{FindsFrom, comparison};

use attributes::layout::Layout;
use attributes::{read, value};
use communities::left::sift;
use communities::tags::Dropping;
use parts::{all_turned_found, count, new_otc_found, new_tag_found};
use rewriting::planner::{make_plan, otc_to_add};
use rules::{BLOCK_MAX, Refusal, Session};
use settings::ranges::{block_size_ok, sending_ok};
use settings::roles::OWN_ROUTE;
use verdicts::{new_flags, sending_rule, sent_otc, sent_tag};

// All of ours looked up: the attributes of a block that has been read as they go out, a new tag, and a new OTC. Internal.
fn all_found(
    block: &[u8],
    layout: Layout,
    left: usize,
    flags: u8,
    tag: u8,
    asn: Option<u32>,
    sent: &[u8],
) -> Option<usize>
    requires { (ReadBlock block.now layout) × (LeftIn block.now layout AllTags left) }
    ensures { FindsFrom 0 (attributes sent.now) (outgoing AllTags flags tag asn block.now) result }
{
    let old = all_turned_found(block, left, tag, sent)?;
    let with_tag = new_tag_found(old, flags, left, tag, sent)?;
    let otc = otc_to_add(layout.otc, block.len(), asn);
    new_otc_found(with_tag, flags, otc, sent)
}

// Ours, by what sending decides of a block that has been read, against the block sent: no more of theirs than of ours, which are all found.
// Internal.
fn compare(
    block: &[u8],
    layout: Layout,
    flags: u8,
    tag: u8,
    asn: Option<u32>,
    sent: &[u8],
) -> Result<bool, Refusal>
    requires { (ReadBlock block.now layout) × (long flags ≡ false) }
    ensures { told_sent_check result ≡ comparison (outgoing AllTags flags tag asn block.now) sent.now }
{
    let left = sift(Dropping::AllTags, value(block, layout.communities)).left;
    let plan = make_plan(block, layout, left, Dropping::AllTags, flags, tag, asn);
    let most = BLOCK_MAX;
    if most < plan.size {
        return Err(Refusal::NoRoom);
    }
    let Some(ours) = all_found(block, layout, left, flags, tag, asn, sent) else {
        return Ok(false);
    };
    let Some(theirs) = count(sent) else {
        return Ok(false);
    };
    Ok(theirs <= ours)
}

// Whether the block that another make sent is allowed, by what our sending makes of the same input.
pub fn check_sent(
    session: Session,
    source: u8,
    state: u8,
    block: &[u8],
    sent: &[u8],
) -> Result<bool, Refusal>
    ensures { told_sent_check result ≡ allowed session source state block.now sent.now }
{
    if !sending_ok(session, source, state) {
        return Err(Refusal::BadSetting);
    }
    if !block_size_ok(block.len()) {
        return Err(Refusal::BadLength);
    }
    if !block_size_ok(sent.len()) {
        return Err(Refusal::BadLength);
    }
    let layout = read(block)?;
    let has = layout.otc < block.len();
    if sending_rule(session, source, state, has).is_some() {
        return Ok(false);
    }
    let tag = sent_tag(session, source, state);
    let asn = sent_otc(session, source, state);
    let flags = new_flags(source == OWN_ROUTE);
    compare(block, layout, flags, tag, asn, sent)
}
