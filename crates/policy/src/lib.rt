// Receipt (RFC 9234 section 5, RFC 8097; 01, "Receipt"; 02, Q-8 and Q-11): the checks, the verdict, and the block rewritten. Sending is two
// calls, each in a file of its own.
#![tactic(auto)]

pub mod placed;
pub mod size;
pub mod write;

ghost use Rattle.std.specs.Prelude.{◌≡◌};
ghost use Rattle.rules.specs.Answers.{told_received, thrown_received, state_received};
ghost use Rattle.rules.specs.Receipt.{GotNumbered};
ghost use Rattle.policy.specs.Placed.{GotPlaced, otc_at};

use attributes::{otc_as, read, value};
use communities::left::sift;
use communities::received::state_left;
use communities::tags::Dropping;
use placed::Placed;
use rewriting::store;
use rules::{Declined, Received, Refusal, Session};
use settings::ranges::{block_size_ok, session_ok};
use settings::states::UNAVAILABLE;
use verdicts::{new_flags, receipt_rule, received_otc, received_test};

// The AS that the OTC at a place of a block names; none where the place is the block's end.
fn otc_at(block: &[u8], place: usize) -> Option<u32>
    ensures { result ≡ otc_at place block.now }
{
    if place < block.len() {
        return Some(otc_as(value(block, place)));
    }
    None
}

// Receipt, handing on where the AS_PATH stands, for a caller that validates the origin. Internal.
pub fn receive_placed(session: Session, block: &[u8], out: &mut [u8]) -> Result<Placed, Declined>
    ensures { GotPlaced session block.now out.old result out.new }
{
    if !session_ok(session) {
        return Err(Declined::Refused(Refusal::BadSetting));
    }
    if !block_size_ok(block.len()) {
        return Err(Declined::Refused(Refusal::BadLength));
    }
    let layout = read(block)?;
    if let Some(rule) = receipt_rule(session, otc_at(block, layout.otc)) {
        let thrown_out = sift(Dropping::AllTags, value(block, layout.communities)).thrown_out;
        return Err(Declined::Ineligible { rule, thrown_out });
    }
    let dropping = received_test(session);
    let asn = received_otc(session);
    let flags = new_flags(false);
    let stored = store(block, layout, dropping, flags, UNAVAILABLE, asn, out);
    let written = stored.ok_or(Refusal::NoRoom)?;
    Ok(Placed {
        length: written.length,
        as_path: layout.as_path,
        thrown_out: written.thrown_out,
        state: state_left(dropping, value(block, layout.communities)),
    })
}

// Receipt (RFC 9234 section 5, ingress): the route as it may be installed, or why not; on answers 0 and 1 also how many tags of the
// block received are thrown out, and on answer 0 the state that those left tell.
pub fn receive(session: Session, block: &[u8], out: &mut [u8]) -> Result<Received, Declined>
    ensures { GotNumbered session block.now out.old (told_received result) (thrown_received result) (state_received result) out.new }
{
    let placed = receive_placed(session, block, out)?;
    Ok(Received {
        length: placed.length,
        thrown_out: placed.thrown_out,
        state: placed.state as usize,
    })
}
