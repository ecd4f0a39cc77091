// The rules of receipt and sending, and what they drop and add (01, "Receipt" and "Sending"; 02, Q-2 and Q-11; RFC 9234 section 5). All
// of it is internal: receipt and sending call it. Rules are told by document 01's numbers, which stand beside answers 1 and 2 (decision 116).
#![tactic(auto)]

ghost use Rattle.std.specs.Prelude.{◌≡◌, not, cond, ◌&&◌, [], ◌∷◌, ◌≤◌, eqb};
ghost use Rattle.std.proofs.Math.Option.{none, some};
ghost use Rattle.rules.specs.Bytes.{one_of};
ghost use Rattle.rules.specs.Settings.{mode_meant, drop_invalid, invalid};
ghost use Rattle.rules.specs.Roles.{provider, rs, rs_client, customer, peer};
ghost use Rattle.rules.specs.Changes.{new_flags};
ghost use Rattle.rules.specs.Receipt.{otc_received, dropped_received};
ghost use Rattle.rules.specs.Sending.{own_route, tag_sent, otc_sent};
ghost use Rattle.settings.specs.Told.{told_tag, told_otc};
ghost use Rattle.communities.specs.Tags.{drop_test};
ghost use Rattle.verdicts.specs.Judge.{ReceiptRule, SendingRule};

use communities::tags::Dropping;
use rules::Session;
use settings::flags::{both, one_of_three, one_of_two};
use settings::modes::{DROP_INVALID, mode_meant};
use settings::roles::{CUSTOMER, OWN_ROUTE, PEER, PROVIDER, RS, RS_CLIENT, remote_role};
use settings::sessions::one_administration;
use settings::states::{INVALID, UNAVAILABLE};

// Flags of an attribute (RFC 4271 section 4.3): optional and transitive; partial too.
const OPTIONAL_TRANSITIVE: u8 = 0xC0;

const OPTIONAL_TRANSITIVE_PARTIAL: u8 = 0xE0;

// A role that routes go up or across to: Provider, Peer or RS.
fn is_up(role: u8) -> bool
    ensures { result ≡ one_of (provider ∷ peer ∷ rs ∷ []) role }
{
    one_of_three(role, PROVIDER, PEER, RS)
}

// The rule by which a received route is ineligible, by the AS that its OTC names where it has one (01, Receipt, rules 1 and 2; RFC 9234
// section 5, ingress). Where no rule applies the route is eligible.
pub fn receipt_rule(session: Session, otc: Option<u32>) -> Option<u8>
    ensures { ReceiptRule session otc result }
{
    let role = session.local_role;
    let remote = session.remote_as;
    let from = remote_role(role);
    let otc = otc?;
    if one_of_two(from, CUSTOMER, RS_CLIENT) {
        return Some(1);
    }
    if from == PEER && otc != remote {
        return Some(2);
    }
    None
}

// Which communities receipt drops: every tag, or with both ends under one administration those above 2 (02, Q-11).
pub fn received_test(session: Session) -> Dropping
    ensures { drop_test result ≡ dropped_received session }
{
    if one_administration(session) {
        return Dropping::ErroneousTags;
    }
    Dropping::AllTags
}

// The AS that a new OTC names on receipt, or none (01, Receipt).
pub fn received_otc(session: Session) -> Option<u32>
    ensures { told_otc result ≡ otc_received session }
{
    let from = remote_role(session.local_role);
    is_up(from).then_some(session.remote_as)
}

// A source that is neither an own route nor a Customer (01, Sending, rule 2).
fn from_above(source: u8) -> bool
    ensures { result ≡ not (one_of (own_route ∷ customer ∷ []) source) }
{
    !one_of_two(source, OWN_ROUTE, CUSTOMER)
}

// An invalid route that the mode drops on its way to an RS-Client (01, Sending, rule 3).
fn dropped(mode: u8, state: u8, to: u8) -> bool
    ensures { result ≡ (eqb (mode_meant mode) drop_invalid && eqb state invalid && eqb to rs_client) }
{
    mode_meant(mode) == DROP_INVALID && state == INVALID && to == RS_CLIENT
}

// The rule by which a route is withheld, by whether it has an OTC (01, Sending, rules 1 to 3; RFC 9234 section 5, egress). Where no rule
// applies it goes out.
pub fn sending_rule(session: Session, source: u8, state: u8, has: bool) -> Option<u8>
    ensures { SendingRule session source state has result }
{
    let to = remote_role(session.local_role);
    let up = is_up(to);
    let above = from_above(source);
    if both(has, up) {
        return Some(1);
    }
    if both(above, up) {
        return Some(2);
    }
    if dropped(session.mode, state, to) {
        return Some(3);
    }
    None
}

// The flags of new attributes, by whether the route is the sender's own (02, Q-2; RFC 4271 section 5).
pub fn new_flags(own: bool) -> u8
    ensures { result ≡ new_flags own }
{
    if own {
        return OPTIONAL_TRANSITIVE;
    }
    OPTIONAL_TRANSITIVE_PARTIAL
}

// The state that sending tags a route with, towards an RS-Client, or with both ends under one administration towards any role: 3 for no tag
// (01, Sending; 02, Q-11), which is a state of the definitions, and no option.
pub fn sent_tag(session: Session, source: u8, state: u8) -> u8
    ensures { told_tag result ≡ tag_sent session source state }
{
    if remote_role(session.local_role) == RS_CLIENT {
        return state;
    }
    if one_administration(session) {
        state
    } else {
        UNAVAILABLE
    }
}

// The AS that a new OTC names on sending, or none (01, Sending).
pub fn sent_otc(session: Session, source: u8, state: u8) -> Option<u32>
    ensures { told_otc result ≡ otc_sent session source state }
{
    let to = remote_role(session.local_role);
    let marked = one_of_three(to, CUSTOMER, PEER, RS_CLIENT);
    marked.then_some(session.local_as)
}
