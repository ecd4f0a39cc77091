// Frames of each kind, answered (01, "The desk program"; 02, Q-8 and Q-11). Each function stores its result at the start of `made`, which its
// caller lends, and answers how many bytes that is, or a refusal. All of it is internal: `answer_frame` calls it.
ghost use Rattle.std.specs.Prelude.{◌≡◌, List, ◌*◌, ◌≤◌, length};
ghost use Rattle.rules.specs.Origin.{Vrp, vrp_size, vrps};
ghost use Rattle.rules.specs.Desk.{session_head, session_in, session_frame, sending_frame, vrp_frame};
ghost use Rattle.vrp_tables.specs.Scan.{GoodTable};
ghost use Rattle.frames.specs.Sizes.{result_max};
ghost use Rattle.vrps.specs.Widths.{bits};
ghost use Rattle.frames.specs.Replying.{Replies, TellsReceipt};

use super::reply::{Outcome, dashed, numbered};
use as_path::path_origin;
use attributes::value;
use octets::number4;
use opening::open_session;
use policy::receive_placed;
use policy::write::send_write;
use rules::{BLOCK_MAX, Declined, Refusal, Session, VRPS_MAX};
use settings::ranges::{prefix_length_ok, session_ok};
use settings::sessions::session_of;
use vrp_tables::parts::scan_parts;
use vrps::bad_vrp;
use vrps::family::Family;
use vrps::prefixes::words;

// The least bytes of a session frame and of a sending frame.
const SESSION_MIN: usize = 13;

const SENDING_MIN: usize = 3;

// 01: local AS 4, remote AS 4, local role, strict, mode, whether both ends are under one administration. Internal.
pub fn session_in(frame: &[u8]) -> Session
    requires { session_head ≤ length frame.now }
    ensures { result ≡ session_in frame.now }
{
    session_of(
        number4(&frame[1..5]),
        number4(&frame[5..9]),
        frame[9],
        frame[11],
        frame[12],
    )
}

// 01, session, with the OPEN's parameters after the settings; its result is the remote role. Internal.
pub fn session_frame(frame: &[u8], made: &mut [u8]) -> Result<usize, Refusal>
    requires { length made.old ≡ result_max }
    ensures { Replies (session_frame frame.now) made.new result }
{
    if frame.len() < SESSION_MIN {
        return Err(Refusal::Unreadable);
    }
    if !session_ok(session_in(frame)) {
        return Err(Refusal::BadSetting);
    }
    let role = open_session(&frame[SESSION_MIN..], frame[9], frame[10])?;
    made[0] = role;
    Ok(1)
}

// 02 and 12, receipt: prefix length, prefix of so many bits, block; its result is the state, found after the verdict, and the block. The
// fourth field is how many tags of the block are thrown out. The state is the table's, though it is empty, never one that tags tell. Internal.
pub fn receipt_frame(
    family: Family,
    session: Session,
    table: &[u8],
    frame: &[u8],
    made: &mut [u8],
) -> Outcome
    requires { (GoodTable (bits family) table.now) × (length made.old ≡ result_max) }
    ensures { TellsReceipt (bits family) session (vrps (bits family) table.now) frame.now made.new result }
{
    let head = 2 + family.octets();
    if frame.len() < head {
        return dashed(Refusal::Unreadable);
    }
    let len = frame[1];
    if !prefix_length_ok(family.bits, len) {
        return dashed(Refusal::BadSetting);
    }
    let block = &frame[head..];
    match receive_placed(session, block, &mut made[1..]) {
        Err(Declined::Refused(refusal)) => dashed(refusal),
        Err(Declined::Ineligible { rule, thrown_out }) => {
            numbered(Err(Refusal::Ineligible(rule)), thrown_out)
        }
        Ok(placed) => {
            let origin = path_origin(value(block, placed.as_path), session.local_as);
            let prefix = words(&frame[2..head]);
            let found = scan_parts(family, table, prefix, len, origin);
            made[0] = found;
            numbered(Ok(1 + placed.length), placed.thrown_out)
        }
    }
}

// 03, sending: source, state, block; its result is the block. There is room for any result, so that its length is not asked first (02, Q-6).
// Internal.
pub fn sending_frame(session: Session, frame: &[u8], made: &mut [u8]) -> Result<usize, Refusal>
    requires { length made.old ≡ result_max }
    ensures { Replies (sending_frame session frame.now) made.new result }
{
    if frame.len() < SENDING_MIN {
        return Err(Refusal::Unreadable);
    }
    send_write(
        session,
        frame[1],
        frame[2],
        &frame[SENDING_MIN..],
        &mut made[..BLOCK_MAX],
    )
}

// 04 and 14, one VRP with a prefix of so many bits, where `used` bytes of its table hold those taken before; it has no result to show.
// Internal.
pub fn vrp_frame(family: Family, used: usize, frame: &[u8], made: &[u8]) -> Result<usize, Refusal>
    ensures { (held : List Vrp) → used ≡ vrp_size (bits family) * length held → Replies (vrp_frame (bits family) held frame.now) made.now result }
{
    let size = family.record_size();
    if frame.len() < 1 + size {
        return Err(Refusal::Unreadable);
    }
    if 1 + size < frame.len() {
        return Err(Refusal::BadLength);
    }
    if VRPS_MAX * size <= used {
        return Err(Refusal::BadLength);
    }
    if bad_vrp(family.bits, &frame[1..]) {
        return Err(Refusal::BadVrp(0));
    }
    Ok(0)
}
