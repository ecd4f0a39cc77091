// The one pass that stores a block as it is planned: its bytes, its communities attribute as it goes out, and what is new. All
// of it is internal.
ghost use Rattle.std.specs.Prelude.{◌+◌, ◌≤◌, length};
ghost use Rattle.octets.specs.Buffer.{Stored};
ghost use Rattle.rewriting.specs.Plan.{new_tag_bytes, new_otc_bytes, piece, emitted, PlanOk, Fits};

use super::attribute::put_community;
use super::plan::Plan;
use attributes::values::{COMMUNITIES, OTC};
use communities::tags::{TAG_SUBTYPE, TAG_TYPE};
use octets::buffer::{put, put_number4};
use settings::states::INVALID;

// Stores a new tag attribute, where no community is left and there is a state to tell. Internal.
fn put_new_tag(flags: u8, left: usize, state: u8, out: &mut [u8], at: usize) -> usize
    requires { at + length (new_tag_bytes flags left state) ≤ length out.old }
    ensures { Stored out.old at (new_tag_bytes flags left state) result out.new }
{
    if left != 0 {
        return at;
    }
    if INVALID < state {
        return at;
    }
    let bytes = [
        flags,
        COMMUNITIES,
        8,
        TAG_TYPE,
        TAG_SUBTYPE,
        0,
        0,
        0,
        0,
        0,
        state,
    ];
    put(&bytes, out, at)
}

// Stores a new OTC, where there is an AS to name. Internal.
fn put_new_otc(flags: u8, asn: Option<u32>, out: &mut [u8], at: usize) -> usize
    requires { at + length (new_otc_bytes flags asn) ≤ length out.old }
    ensures { Stored out.old at (new_otc_bytes flags asn) result out.new }
{
    let Some(asn) = asn else {
        return at;
    };
    let header = [flags, OTC, 4];
    let value = put(&header, out, at);
    put_number4(asn, out, value)
}

// Stores the bytes of a block from one place to another, its communities attribute as it goes out. Internal.
fn put_piece(block: &[u8], plan: Plan, from: usize, to: usize, out: &mut [u8], at: usize) -> usize
    requires { Fits block.now plan from to out.old at }
    ensures { Stored out.old at (piece block.now plan from to) result out.new }
{
    let communities = plan.communities;
    let rest = plan.rest;
    if communities < from {
        return put(&block[from..to], out, at);
    }
    if to <= communities {
        return put(&block[from..to], out, at);
    }
    let start = put(&block[from..communities], out, at);
    let end = put_community(
        &block[communities..rest],
        plan.left,
        plan.dropping,
        plan.tag,
        out,
        start,
    );
    put(&block[rest..to], out, end)
}

// Stores a block as it is planned. Internal.
pub fn write(block: &[u8], plan: Plan, out: &mut [u8]) -> usize
    requires { (PlanOk block.now plan) × (length (emitted block.now plan) ≤ length out.old) }
    ensures { Stored out.old 0 (emitted block.now plan) result out.new }
{
    let tag_place = plan.new_tag;
    let otc_place = plan.new_otc;
    let tag = put_piece(block, plan, 0, tag_place, out, 0);
    let middle = put_new_tag(plan.flags, plan.left, plan.tag, out, tag);
    let otc = put_piece(block, plan, tag_place, otc_place, out, middle);
    let last = put_new_otc(plan.flags, plan.otc, out, otc);
    put_piece(block, plan, otc_place, block.len(), out, last)
}
