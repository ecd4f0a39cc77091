// The range of each setting, and of those that a call takes together (01, "Settings"; 02, Q-11).
ghost use Rattle.std.specs.Prelude.{◌≡◌, not, ◌&&◌, leb, eqb};
ghost use Rattle.rules.specs.Settings.{block_max, as_ok, role_ok, strict_ok, mode_ok, state_ok, source_ok, prefix_length_ok, administration_ok, session_ok};

use super::flags::both;
use super::modes::PRIORITISE;
use super::roles::{OWN_ROUTE, PEER, RS};
use super::sessions::ONE_ADMINISTRATION;
use super::states::UNAVAILABLE;
use rules::{BLOCK_MAX, Session};

// "AS numbers 1 to 4,294,967,295"
fn as_ok(n: u32) -> bool
    ensures { result ≡ as_ok n }
{
    1 <= n
}

// The two AS numbers of a session: each in its range, and unequal.
fn ases_ok(local: u32, remote: u32) -> bool
    ensures { result ≡ (as_ok local && as_ok remote && not (eqb local remote)) }
{
    both(both(as_ok(local), as_ok(remote)), local != remote)
}

// "roles 0 to 4"
fn role_ok(role: u8) -> bool
    ensures { result ≡ role_ok role }
{
    role <= PEER
}

// "mode 0 to 3"
pub fn mode_ok(mode: u8) -> bool
    ensures { result ≡ mode_ok mode }
{
    mode <= PRIORITISE
}

// "state 0 to 3"
pub fn state_ok(state: u8) -> bool
    ensures { result ≡ state_ok state }
{
    state <= UNAVAILABLE
}

// "source 0 to 4 or 255"
fn source_ok(source: u8) -> bool
    ensures { result ≡ source_ok source }
{
    source <= PEER || source == OWN_ROUTE
}

// "prefix length 0 to 32", 02, Q-1: "0 to 128", where the width is that of a prefix in bits
pub fn prefix_length_ok(width: usize, len: u8) -> bool
    ensures { result ≡ prefix_length_ok width len }
{
    len as usize <= width
}

// "attribute block 4,073 bytes"
pub fn block_size_ok(len: usize) -> bool
    ensures { result ≡ leb len block_max }
{
    len <= BLOCK_MAX
}

// "5 for a byte above 1, or 1 with local role RS": at an RS, which must strip tags, 0 alone is in range.
fn administration_ok(session: Session) -> bool
    ensures { result ≡ administration_ok session }
{
    if session.local_role == RS {
        return session.one_administration < ONE_ADMINISTRATION;
    }
    session.one_administration <= ONE_ADMINISTRATION
}

// The settings of a session.
pub fn session_ok(session: Session) -> bool
    ensures { result ≡ session_ok session }
{
    let ases = ases_ok(session.local_as, session.remote_as);
    let role = both(ases, role_ok(session.local_role));
    let mode = both(role, mode_ok(session.mode));
    both(mode, administration_ok(session))
}

// The settings of sending: those of its session, the source and the state.
pub fn sending_ok(session: Session, source: u8, state: u8) -> bool
    ensures { result ≡ (session_ok session && source_ok source && state_ok state) }
{
    both(
        both(session_ok(session), source_ok(source)),
        state_ok(state),
    )
}

// The settings of opening: a role, strict 0 or 1.
pub fn opening_ok(local_role: u8, strict: u8) -> bool
    ensures { result ≡ (role_ok local_role && strict_ok strict) }
{
    both(role_ok(local_role), strict <= 1)
}

// The settings of a route's origin state: its length, and the caller's own AS.
pub fn route_ok(width: usize, len: u8, own: u32) -> bool
    ensures { result ≡ (prefix_length_ok width len && as_ok own) }
{
    both(prefix_length_ok(width, len), as_ok(own))
}
