// Tags, the origin validation state communities of RFC 8097 section 2: which communities are tags, which are dropped, and the
// bytes of a new one (01, "Receipt" and "Sending"; 02, Q-11).
ghost use Rattle.std.specs.Prelude.{◌≡◌, ◌+◌, ◌≤◌, length, cond, eqb};
ghost use Rattle.rules.specs.Bytes.{same_bytes};
ghost use Rattle.rules.specs.Changes.{is_tag, is_erroneous};
ghost use Rattle.octets.specs.Buffer.{Stored};
ghost use Rattle.communities.specs.Tags.{drop_test, tag_bytes};

use octets::buffer::put;
use octets::same_bytes;
use settings::states::INVALID;

// A community has eight bytes (RFC 4360 section 2).
pub const COMMUNITY_SIZE: usize = 8;

// A tag begins 43 00.
pub const TAG_TYPE: u8 = 0x43;

pub const TAG_SUBTYPE: u8 = 0;

// Which communities are dropped: every tag, or those above 2 alone (02, Q-11).
#[derive(Clone, Copy, PartialEq, Eq)]
pub enum Dropping {
    AllTags,
    ErroneousTags,
}

// The test of a number: 0 is every tag, any other those above 2.
impl From<u8> for Dropping {
    ghost from_gives = { λ number test. drop_test test ≡ cond (eqb number 0) is_tag is_erroneous };

    fn from(number: u8) -> Dropping {
        match number {
            0 => Dropping::AllTags,
            _ => Dropping::ErroneousTags,
        }
    }
}

// Whether a community is a tag. Internal.
pub fn is_tag(c: &[u8]) -> bool
    requires { 2 ≤ length c.now }
    ensures { result ≡ is_tag c.now }
{
    if c[0] != TAG_TYPE {
        return false;
    }
    c[1] == TAG_SUBTYPE
}

// Whether a community is a tag above 2, which is thrown out (02, Q-8; RFC 8097 section 2). Internal.
pub fn is_erroneous(c: &[u8]) -> bool
    requires { length c.now ≡ 8 }
    ensures { result ≡ is_erroneous c.now }
{
    if !is_tag(c) {
        return false;
    }
    INVALID < c[7]
}

impl Dropping {
    // Whether a community is dropped. Internal.
    pub fn drops(self, c: &[u8]) -> bool
        requires { length c.now ≡ 8 }
        ensures { result ≡ drop_test self c.now }
    {
        match self {
            Dropping::AllTags => is_tag(c),
            Dropping::ErroneousTags => is_erroneous(c),
        }
    }
}

// How many bytes a new tag has: none where the state is unavailable. Internal.
pub fn tag_size(state: u8) -> usize
    ensures { (result ≡ length (tag_bytes state)) × (result ≤ 8) }
{
    if INVALID < state {
        return 0;
    }
    COMMUNITY_SIZE
}

// Stores a new tag, unless the state is unavailable. Internal.
pub fn put_tag(state: u8, out: &mut [u8], at: usize) -> usize
    requires { at + length (tag_bytes state) ≤ length out.old }
    ensures { Stored out.old at (tag_bytes state) result out.new }
{
    if state <= INVALID {
        let bytes = [TAG_TYPE, TAG_SUBTYPE, 0, 0, 0, 0, 0, state];
        return put(&bytes, out, at);
    }
    at
}

// Whether some bytes are a new tag: none where the state is unavailable.
pub fn same_tag(state: u8, t: &[u8]) -> bool
    ensures { result ≡ same_bytes (tag_bytes state) t.now }
{
    if state > INVALID {
        return t.len() == 0;
    }
    let bytes = [TAG_TYPE, TAG_SUBTYPE, 0, 0, 0, 0, 0, state];
    same_bytes(&bytes, t)
}
