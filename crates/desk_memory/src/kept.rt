// What the desk keeps.
use rules::Session;

// What the desk keeps from line to line, beside its tables: how many bytes of the IPv4 table and of the IPv6 table hold VRPs, and the
// session in force, where there is one.
#[derive(Clone, Copy)]
pub struct Kept {
    pub used: usize,
    pub used6: usize,
    pub session: Option<Session>,
}
