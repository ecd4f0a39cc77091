// The library for callers in C and Rust: numbers, slices and numbers handed back. include/bgp_policy.h declares it. The exports of IPv4 and of
// IPv6 stay apart, and sessions come as five numbers: that is the C interface.
#![tactic(auto)]

pub mod vrp_index;

ghost use Rattle.std.specs.Prelude.{◌≡◌, ◌+◌, ◌*◌, ◌^◌};
ghost use Rattle.std.proofs.Math.Option.{get_or};
ghost use Rattle.rules.specs.Answers.{answer_number, beside_number};
ghost use Rattle.rules.specs.Settings.{session_of};
ghost use Rattle.rules.specs.Roles.{open_session};
ghost use Rattle.rules.specs.Changes.{thrown_told};
ghost use Rattle.rules.specs.Sending.{sending_verdict, send_size};
ghost use Rattle.rules.specs.OtherMake.{allowed};
ghost use Rattle.rules.specs.Origin.{ipv4, ipv6, origin_state, received_tag};
ghost use Rattle.rules.specs.Choice.{choose_in, better, index_told, left_told};
ghost use Rattle.c_api.specs.Numbers.{Numbered, Reported, ReportedReceipt};

use answers::{report, report_chosen, report_received, report_sent_check, report_tag_read};
use choice::keys::Sender;
use settings::sessions::session_of;
use vrps::family::Family;
use vrps::prefixes::{words4, words6};

// Opening of a session: the role agreement in the OPEN's optional parameters.
#[unsafe(no_mangle)]
pub extern "C" fn bgp_open(local_role: u8, strict: u8, parameters: &[u8], beside: &mut usize) -> u8
    ensures { (result ≡ answer_number (open_session local_role strict parameters.now)) × (beside.new ≡ beside_number (open_session local_role strict parameters.now)) }
{
    let answer = opening::open_session(parameters, local_role, strict);
    report(answer.map(usize::from), beside)
}

// Receipt of a block on a session; on answers 0 and 1, through `thrown_out`, how many tags of the block are thrown out, 0 on any other; on
// answer 0, through `state`, the state that the tags left tell, 3 on any other.
#[unsafe(no_mangle)]
pub extern "C" fn bgp_receive(
    local_as: u32,
    remote_as: u32,
    local_role: u8,
    mode: u8,
    one_administration: u8,
    block: &[u8],
    out: &mut [u8],
    beside: &mut usize,
    thrown_out: &mut usize,
    state: &mut usize,
) -> u8
    ensures { ReportedReceipt (session_of local_as remote_as local_role mode one_administration) block.now out.old
        result beside.new thrown_out.new state.new out.new }
{
    let receiver = session_of(local_as, remote_as, local_role, mode, one_administration);
    let answer = policy::receive(receiver, block, out);
    report_received(answer, beside, thrown_out, state)
}

// The first call of sending: the verdict on a block on a session, and how long it is as it goes out.
#[unsafe(no_mangle)]
pub extern "C" fn bgp_send_size(
    local_as: u32,
    remote_as: u32,
    local_role: u8,
    mode: u8,
    one_administration: u8,
    source: u8,
    state: u8,
    block: &[u8],
    beside: &mut usize,
) -> u8
    ensures { Numbered (send_size (session_of local_as remote_as local_role mode one_administration) source state block.now) result beside.new }
{
    let session = session_of(local_as, remote_as, local_role, mode, one_administration);
    let answer = policy::size::send_size(session, source, state, block);
    report(answer, beside)
}

// The second: the block as it goes out.
#[unsafe(no_mangle)]
pub extern "C" fn bgp_send_write(
    local_as: u32,
    remote_as: u32,
    local_role: u8,
    mode: u8,
    one_administration: u8,
    source: u8,
    state: u8,
    block: &[u8],
    out: &mut [u8],
    beside: &mut usize,
) -> u8
    ensures { Reported (sending_verdict (session_of local_as remote_as local_role mode one_administration) source state block.now) out.old result beside.new out.new }
{
    let sender = session_of(local_as, remote_as, local_role, mode, one_administration);
    let answer = policy::write::send_write(sender, source, state, block, out);
    report(answer, beside)
}

// Whether the block that another make sent is allowed, by what sending makes of the same input: 1 for yes, 0 for no.
#[unsafe(no_mangle)]
pub extern "C" fn bgp_check_sent(
    local_as: u32,
    remote_as: u32,
    local_role: u8,
    mode: u8,
    one_administration: u8,
    source: u8,
    state: u8,
    block: &[u8],
    sent: &[u8],
    beside: &mut usize,
) -> u8
    ensures { Numbered (allowed (session_of local_as remote_as local_role mode one_administration) source state block.now sent.now)
        result beside.new }
{
    let own = session_of(local_as, remote_as, local_role, mode, one_administration);
    let answer = other_make::check_sent(own, source, state, block, sent);
    report_sent_check(answer, beside)
}

// The origin state of an IPv4 route, by a table of VRPs.
#[unsafe(no_mangle)]
pub extern "C" fn bgp_origin_state(
    prefix_length: u8,
    prefix: u32,
    own_as: u32,
    table: &[u8],
    block: &[u8],
    beside: &mut usize,
) -> u8
    ensures { (result ≡ answer_number (origin_state ipv4 prefix_length prefix own_as table.now block.now)) × (beside.new ≡ beside_number (origin_state ipv4 prefix_length prefix own_as table.now block.now)) }
{
    let words = words4(prefix);
    let answer = origin::origin_state(Family::ipv4(), prefix_length, words, own_as, table, block);
    report(answer.map(usize::from), beside)
}

// The origin state of an IPv6 route, by a table of VRPs; the prefix is two numbers, that of its first eight bytes and that of its last.
#[unsafe(no_mangle)]
pub extern "C" fn bgp_origin_state6(
    prefix_length: u8,
    prefix_high: u64,
    prefix_low: u64,
    own_as: u32,
    table: &[u8],
    block: &[u8],
    beside: &mut usize,
) -> u8
    ensures { (result ≡ answer_number (origin_state ipv6 prefix_length (prefix_high * 2 ^ 64 + prefix_low) own_as table.now block.now)) × (beside.new ≡ beside_number (origin_state ipv6 prefix_length (prefix_high * 2 ^ 64 + prefix_low) own_as table.now block.now)) }
{
    let prefix = words6(prefix_high, prefix_low);
    let answer = origin::origin_state(Family::ipv6(), prefix_length, prefix, own_as, table, block);
    report(answer.map(usize::from), beside)
}

// The state that the tags received in a block tell, and through `thrown_out` how many of them are thrown out, 0 on a refusal.
#[unsafe(no_mangle)]
pub extern "C" fn bgp_received_tag(block: &[u8], beside: &mut usize, thrown_out: &mut usize) -> u8
    ensures { (result ≡ answer_number (received_tag block.now)) × (beside.new ≡ beside_number (received_tag block.now))
        × (thrown_out.new ≡ get_or (thrown_told result block.now) 0) }
{
    report_tag_read(origin::received_tag(block), beside, thrown_out)
}

// The route for a client, among the candidates of a table.
#[unsafe(no_mangle)]
pub extern "C" fn bgp_choose(
    mode: u8,
    client: u32,
    buffer: &[u8],
    candidates: &[u8],
    beside: &mut usize,
    left: &mut usize,
) -> u8
    ensures { (result ≡ answer_number (choose_in mode client buffer.now candidates.now)) × (beside.new ≡ beside_number (index_told (choose_in mode client buffer.now candidates.now))) × (left.new ≡ left_told (choose_in mode client buffer.now candidates.now)) }
{
    let answer = choice::choose(mode, client, buffer, candidates);
    report_chosen(answer, beside, left)
}

// The better of two candidates, as an index.
#[unsafe(no_mangle)]
pub extern "C" fn bgp_better<'a>(
    first: &'a [u8],
    state: u8,
    identifier: u32,
    address: u32,
    second: &'a [u8],
    other_state: u8,
    other_identifier: u32,
    other_address: u32,
    beside: &mut usize,
) -> u8
    ensures { (result ≡ answer_number (better (record { block = first.now; state = state; identifier = identifier; address = address }) (record { block = second.now; state = other_state; identifier = other_identifier; address = other_address }))) × (beside.new ≡ beside_number (better (record { block = first.now; state = state; identifier = identifier; address = address }) (record { block = second.now; state = other_state; identifier = other_identifier; address = other_address }))) }
{
    let sender = Sender {
        state,
        identifier,
        address,
    };
    let other = Sender {
        state: other_state,
        identifier: other_identifier,
        address: other_address,
    };
    report(choice::better(first, sender, second, other).told, beside)
}
