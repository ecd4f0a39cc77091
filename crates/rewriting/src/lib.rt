// A block rewritten (01, "Receipt" and "Sending"; RFC 9234 section 5, RFC 8097): first the exact length of the result, then one
// pass that stores it. Which communities are dropped, the flags of new attributes, the tag and the OTC are handed in. All of it is
// internal: receipt and sending call it.
#![tactic(auto)]

pub mod attribute;
pub mod plan;
pub mod planner;
pub mod writer;

ghost use Rattle.rewriting.specs.Plan.{ReadBlock};
ghost use Rattle.rewriting.specs.Stores.{Measures, Rewrites, Counts};

use attributes::layout::Layout;
use attributes::value;
use communities::left::sift;
use communities::tags::Dropping;
use plan::Written;
use planner::make_plan;
use rules::BLOCK_MAX;
use writer::write;

// How long a block that has been read is as it goes out. Nothing is stored, and of the block only its communities are walked. Internal.
pub fn measure(
    block: &[u8],
    layout: Layout,
    dropping: Dropping,
    flags: u8,
    tag: u8,
    asn: Option<u32>,
) -> usize
    requires { ReadBlock block.now layout }
    ensures { Measures dropping flags tag asn block.now result }
{
    let left = sift(dropping, value(block, layout.communities)).left;
    let plan = make_plan(block, layout, left, dropping, flags, tag, asn);
    plan.size
}

// Stores a block that has been read as it goes out, with the state of a tag (3: none) and the AS of an OTC, if any, and tells how many
// of its tags are thrown out, found in the walk for the length; nothing where there is no room. Internal.
pub fn store(
    block: &[u8],
    layout: Layout,
    dropping: Dropping,
    flags: u8,
    tag: u8,
    asn: Option<u32>,
    out: &mut [u8],
) -> Option<Written>
    requires { ReadBlock block.now layout }
    ensures { (Rewrites dropping flags tag asn block.now out.old result out.new) × (Counts block.now result) }
{
    let sifted = sift(dropping, value(block, layout.communities));
    let plan = make_plan(block, layout, sifted.left, dropping, flags, tag, asn);
    let size = plan.size;
    if out.len() < size {
        return None;
    }
    let most = BLOCK_MAX;
    if most < size {
        return None;
    }
    Some(Written {
        length: write(block, plan, out),
        thrown_out: sifted.thrown_out,
    })
}
