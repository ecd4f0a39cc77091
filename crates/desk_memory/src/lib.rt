// What the desk keeps: frames answered from it by their first byte, and what it is after them (01, "The desk program"; 02, Q-1, Q-8). All of
// it is internal: the desk's byte machine calls it. The two tables share one memory: that of IPv4 first, and from `TABLE_MAX` on the four
// parts of that of IPv6.
#![tactic(auto)]

pub mod kept;
pub mod kinds;
pub mod sizes;

ghost use Rattle.std.specs.Prelude.{◌≡◌, true, ◌≤◌, length, take};
ghost use Rattle.rules.specs.Desk.{session_head};
ghost use Rattle.frames.specs.Sizes.{result_max};
ghost use Rattle.desk_memory.specs.Keeping.{desk_of, used_of, memory_of, without_session, TellsFrame, Keeps, Agrees, KeptNext, kept_session};

use frames::kinds::{receipt_frame, sending_frame, session_frame, session_in, vrp_frame};
use frames::reply::{Outcome, dashed, plain};
use kept::Kept;
use kinds::{Ip, Kind, kind_of};
use octets::buffer::put;
use rules::Refusal;
use sizes::TABLE_MAX;

// How many bytes of a family's table hold VRPs. Internal.
fn used_of(kept: Kept, ip: Ip) -> usize
    ensures { result ≡ used_of ip kept }
{
    match ip {
        Ip::V4 => kept.used,
        Ip::V6 => kept.used6,
    }
}

// The bytes of a family's table that hold VRPs. Internal.
fn table_of(kept: Kept, tables: &[u8], ip: Ip) -> &[u8]
    requires { Keeps kept tables.now }
    ensures { result.now ≡ take (used_of ip kept) (memory_of ip tables.now) }
{
    match ip {
        Ip::V4 => &tables[..kept.used],
        Ip::V6 => &tables[TABLE_MAX..TABLE_MAX + kept.used6],
    }
}

// A frame that needs a session, where there is none: a receipt has its fourth field all the same. Internal.
fn without_session(kind: Kind) -> Outcome
    ensures { result ≡ without_session kind }
{
    match kind {
        Kind::Receipt(_) => dashed(Refusal::Unreadable),
        Kind::Session | Kind::Sending | Kind::Vrp(_) => plain(Err(Refusal::Unreadable)),
    }
}

// A frame of any kind. Internal.
pub fn answer_frame(kept: Kept, tables: &[u8], frame: &[u8], made: &mut [u8]) -> Outcome
    requires { (1 ≤ length frame.now) × (Keeps kept tables.now) × (length made.old ≡ result_max) }
    ensures { TellsFrame (desk_of kept tables.now) frame.now made.new result }
{
    let Some(kind) = kind_of(frame[0]) else {
        return plain(Err(Refusal::Unreadable));
    };
    match kind {
        Kind::Session => plain(session_frame(frame, made)),
        Kind::Receipt(ip) => match kept.session {
            // A call for each family, so that the walk of its table knows the size of a record.
            Some(session) => match ip {
                Ip::V4 => receipt_frame(
                    Ip::V4.family(),
                    session,
                    table_of(kept, tables, Ip::V4),
                    frame,
                    made,
                ),
                Ip::V6 => receipt_frame(
                    Ip::V6.family(),
                    session,
                    table_of(kept, tables, Ip::V6),
                    frame,
                    made,
                ),
            },
            None => without_session(kind),
        },
        Kind::Sending => match kept.session {
            Some(session) => plain(sending_frame(session, frame, made)),
            None => without_session(kind),
        },
        Kind::Vrp(ip) => plain(vrp_frame(ip.family(), used_of(kept, ip), frame, made)),
    }
}

// What is kept after a session frame that was answered 0, or not. Internal.
fn keep_session(kept: Kept, frame: &[u8], taken: bool) -> Kept
    requires { taken ≡ true → session_head ≤ length frame.now }
    ensures { result ≡ kept_session kept frame.now taken }
{
    if !taken {
        return Kept {
            session: None,
            ..kept
        };
    }
    Kept {
        session: Some(session_in(frame)),
        ..kept
    }
}

// What is kept after a frame that was answered 0, or not. Internal.
pub fn keep_frame(kept: Kept, frame: &[u8], taken: bool, tables: &mut [u8]) -> Kept
    requires { (1 ≤ length frame.now) × (Keeps kept tables.old) × (Agrees (desk_of kept tables.old) frame.now taken) }
    ensures { KeptNext kept tables.old frame.now result tables.new }
{
    let Some(kind) = kind_of(frame[0]) else {
        return kept;
    };
    match kind {
        Kind::Session => keep_session(kept, frame, taken),
        Kind::Receipt(_) | Kind::Sending => kept,
        Kind::Vrp(ip) => {
            if !taken {
                return kept;
            }
            match ip {
                Ip::V4 => {
                    let used = put(&frame[1..], &mut tables[..TABLE_MAX], kept.used);
                    Kept { used, ..kept }
                }
                Ip::V6 => {
                    let used6 = put(&frame[1..], &mut tables[TABLE_MAX..], kept.used6);
                    Kept { used6, ..kept }
                }
            }
        }
    }
}
