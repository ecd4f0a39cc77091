// The second call of sending (RFC 9234 section 5, egress; 01, "Sending"; 02, Q-6): the verdict and the bytes. It checks all of it anew and
// trusts no earlier call.
ghost use Rattle.rules.specs.Answers.{told};
ghost use Rattle.rules.specs.Sending.{Sent};

use attributes::read;
use communities::tags::Dropping;
use rewriting::store;
use rules::{Refusal, Session};
use settings::ranges::{block_size_ok, sending_ok};
use settings::roles::OWN_ROUTE;
use verdicts::{new_flags, sending_rule, sent_otc, sent_tag};

// The route as it goes to the neighbour, stored, or why it is withheld.
pub fn send_write(
    session: Session,
    source: u8,
    state: u8,
    block: &[u8],
    out: &mut [u8],
) -> Result<usize, Refusal>
    ensures { Sent session source state block.now out.old (told result) out.new }
{
    if !sending_ok(session, source, state) {
        return Err(Refusal::BadSetting);
    }
    if !block_size_ok(block.len()) {
        return Err(Refusal::BadLength);
    }
    let layout = read(block)?;
    let has = layout.otc < block.len();
    if let Some(rule) = sending_rule(session, source, state, has) {
        return Err(Refusal::Withheld(rule));
    }
    let tag = sent_tag(session, source, state);
    let asn = sent_otc(session, source, state);
    let flags = new_flags(source == OWN_ROUTE);
    let stored = store(block, layout, Dropping::AllTags, flags, tag, asn, out);
    let written = stored.ok_or(Refusal::NoRoom)?;
    Ok(written.length)
}
