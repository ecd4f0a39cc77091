// Opening a session (RFC 9234 section 4.2, RFC 5492; 01, "Opening a session"): the OPEN's optional parameters are read to their
// end, and then the roles that they held are judged.
#![tactic(auto)]

ghost use Rattle.std.specs.Prelude.{◌≡◌};
ghost use Rattle.rules.specs.Answers.{told};
ghost use Rattle.rules.specs.Roles.{parameters_ok, roles_in, open_session};
ghost use Rattle.opening.specs.Open.{noted, found, found_in, seen_disagree};

use octets::wide;
use rules::{PARAMETERS_MAX, Refusal};
use settings::ranges::opening_ok;
use settings::roles::remote_role;

// The type of the parameter that holds capabilities (RFC 5492 section 4), and the code of the BGP Role capability (RFC 9234 section 4.1).
const CAPABILITIES: u8 = 2;

const ROLE: u8 = 9;

// The role capabilities met so far: none, all of one value, or unequal ones.
#[derive(Clone, Copy)]
pub enum Seen {
    Absent,
    One(u8),
    Unequal,
}

// What was met, with one more role capability.
fn note(seen: Seen, role: u8) -> Seen
    ensures { result ≡ noted seen role }
{
    match seen {
        Seen::Absent => Seen::One(role),
        Seen::One(first) => if first == role {
            Seen::One(first)
        } else {
            Seen::Unequal
        },
        Seen::Unequal => Seen::Unequal,
    }
}

// Reads parameters to their end: type, length, value. Those of type 2 hold capabilities, and there are no others. What was met with the
// roles in them, or None where they are malformed.
#[cycle(read_capabilities_read_parameters)]
fn read_parameters(s: &[u8], seen: Seen) -> Option<Seen>
    ensures { result ≡ found (parameters_ok s.now) seen (roles_in s.now) }
{
    if s.len() == 0 {
        return Some(seen);
    }
    if s.len() < 2 {
        return None;
    }
    let n = wide(s[1]);
    if s.len() - 2 < n {
        return None;
    }
    if s[0] != CAPABILITIES {
        return None;
    }
    read_capabilities(&s[2..2 + n], &s[2 + n..], seen)
}

// Reads the capabilities of a parameter through (code, length, value), then the parameters after it, likewise. Code 9 is a role.
#[cycle(read_capabilities_read_parameters)]
fn read_capabilities(c: &[u8], after: &[u8], seen: Seen) -> Option<Seen>
    ensures { result ≡ found_in c.now after.now seen }
{
    if c.len() == 0 {
        return read_parameters(after, seen);
    }
    if c.len() < 2 {
        return None;
    }
    let n = wide(c[1]);
    if c.len() - 2 < n {
        return None;
    }
    if c[0] != ROLE {
        return read_capabilities(&c[2 + n..], after, seen);
    }
    if n != 1 {
        return None;
    }
    read_capabilities(&c[3..], after, note(seen, c[2]))
}

// Whether the roles met end the session: unequal ones, one that is not the local role's counterpart, none where strict is 1.
fn disagrees(local_role: u8, strict: u8, seen: Seen) -> bool
    ensures { result ≡ seen_disagree local_role strict seen }
{
    match seen {
        Seen::Absent => strict != 0,
        Seen::One(role) => role != remote_role(local_role),
        Seen::Unequal => true,
    }
}

// Opening a session: the remote role, or why not.
pub fn open_session(parameters: &[u8], local_role: u8, strict: u8) -> Result<u8, Refusal>
    ensures { told result ≡ open_session local_role strict parameters.now }
{
    if !opening_ok(local_role, strict) {
        return Err(Refusal::BadSetting);
    }
    if PARAMETERS_MAX < parameters.len() {
        return Err(Refusal::BadLength);
    }
    let Some(seen) = read_parameters(parameters, Seen::Absent) else {
        return Err(Refusal::BadOpen);
    };
    if disagrees(local_role, strict, seen) {
        return Err(Refusal::Rejected);
    }
    Ok(remote_role(local_role))
}
