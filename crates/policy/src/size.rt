// The first call of sending (RFC 9234 section 5, egress; 01, "Sending"; 02, Q-6): the verdict and the exact length of the result. There is no
// buffer, and nothing is stored. The checks stand in both calls: shared, they took up to 1.3 times the time (decision 103).
ghost use Rattle.rules.specs.Answers.{told};
ghost use Rattle.rules.specs.Sending.{Measured};

use attributes::read;
use communities::tags::Dropping;
use rewriting::measure;
use rules::{BLOCK_MAX, Refusal, Session};
use settings::ranges::{block_size_ok, sending_ok};
use settings::roles::OWN_ROUTE;
use verdicts::{new_flags, sending_rule, sent_otc, sent_tag};

// How long the route is as it goes to the neighbour, or why it is withheld.
pub fn send_size(session: Session, source: u8, state: u8, block: &[u8]) -> Result<usize, Refusal>
    ensures { Measured session source state block.now (told result) }
{
    if !sending_ok(session, source, state) {
        return Err(Refusal::BadSetting);
    }
    if !block_size_ok(block.len()) {
        return Err(Refusal::BadLength);
    }
    let layout = read(block)?;
    let has = layout.otc < block.len();
    if let Some(rule) = sending_rule(session, source, state, has) {
        return Err(Refusal::Withheld(rule));
    }
    let tag = sent_tag(session, source, state);
    let asn = sent_otc(session, source, state);
    let flags = new_flags(source == OWN_ROUTE);
    let size = measure(block, layout, Dropping::AllTags, flags, tag, asn);
    if BLOCK_MAX < size {
        return Err(Refusal::NoRoom);
    }
    Ok(size)
}
