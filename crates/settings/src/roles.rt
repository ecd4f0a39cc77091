// Roles (RFC 9234 section 4.1, table 1) and their counterparts (section 4.2, table 2). Numbers and no enum: a session may be handed in with any
// byte, and `Roles.counterpart` and `Settings.session_ok` speak of all of them (decision 116).
ghost use Rattle.std.specs.Prelude.{◌≡◌};
ghost use Rattle.rules.specs.Roles.{counterpart};

pub const PROVIDER: u8 = 0;

pub const RS: u8 = 1;

pub const RS_CLIENT: u8 = 2;

pub const CUSTOMER: u8 = 3;

pub const PEER: u8 = 4;

// The source of a route that is no neighbour's role (01, "own route").
pub const OWN_ROUTE: u8 = 255;

// The counterpart of a role. A value above 4, which has none, stands for itself.
pub fn remote_role(role: u8) -> u8
    ensures { result ≡ counterpart role }
{
    match role {
        PROVIDER => CUSTOMER,
        RS => RS_CLIENT,
        RS_CLIENT => RS,
        CUSTOMER => PROVIDER,
        PEER => PEER,
        _ => role,
    }
}
