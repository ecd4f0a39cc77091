// Sessions: one by its parts, and whether its two ends are under one administration (02, Q-11; RFC 8097 section 2).
ghost use Rattle.std.specs.Prelude.{◌≡◌};
ghost use Rattle.rules.specs.Settings.{session_of, one_administration};

use rules::Session;

// The byte of a session whose two ends are under one administration.
pub const ONE_ADMINISTRATION: u8 = 1;

// A session by its parts, the byte last: the one place where the code writes it out.
pub fn session_of(local: u32, remote: u32, role: u8, mode: u8, byte: u8) -> Session
    ensures { result ≡ session_of local remote role mode byte }
{
    Session {
        local_as: local,
        remote_as: remote,
        local_role: role,
        mode,
        one_administration: byte,
    }
}

// Whether both ends are under one administration.
pub fn one_administration(session: Session) -> bool
    ensures { result ≡ one_administration session }
{
    session.one_administration == ONE_ADMINISTRATION
}
