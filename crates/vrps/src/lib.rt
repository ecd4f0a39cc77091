// VRP records: prefix, length, maximum length and ASN; covers, matches (RFC 6811 section 2; 01, "Origin state"; 02, Q-1). One code for
// both families.
#![tactic(auto)]

pub mod family;
pub mod prefixes;

ghost use Rattle.std.specs.Prelude.{◌≡◌, length};
ghost use Rattle.rules.specs.Origin.{prefix_in, vrp_size, vrp, bad_vrp, covers, same_as, told_origin};
ghost use Rattle.vrps.specs.Widths.{bits};
ghost use Rattle.vrps.specs.Weighing.{Good, allowed, weighed};

use family::Family;
use octets::{number4_at, wide};
use prefixes::{IPV4, same_leading, same_prefix};
use rules::Words;

// The bytes of a record after its prefix.
pub use prefixes::AFTER_PREFIX;

// What a VRP is to a route: it does not cover it; it covers it and does not match; it matches.
#[derive(Clone, Copy, PartialEq, Eq)]
pub enum Weight {
    Apart,
    Covers,
    Matches,
}

// Whether a record is bad: its length above its maximum, or its maximum above the width. Internal.
pub fn bad_vrp(width: usize, bytes: &[u8]) -> bool
    requires { length bytes.now ≡ vrp_size width }
    ensures { result ≡ bad_vrp width (vrp width bytes.now) }
{
    let at = width / 8;
    let most = bytes[at + 1];
    if most < bytes[at] {
        return true;
    }
    width < wide(most)
}

// Whether a record that is not bad covers the route prefix/len. Internal.
fn covering(family: Family, bytes: &[u8], prefix: Words, len: u8) -> bool
    requires { (length bytes.now ≡ vrp_size (bits family)) × Good (bits family) bytes.now }
    ensures { result ≡ covers (bits family) (vrp (bits family) bytes.now) (prefix_in (bits family) prefix) len }
{
    let at = family.octets();
    let n = bytes[at];
    if len < n {
        return false;
    }
    // An IPv4 prefix is one word: there is nothing to walk.
    if family.bits == IPV4 {
        return same_leading(number4_at(bytes, 0), prefix.first, n);
    }
    same_prefix(&bytes[..at], prefix, n)
}

// Whether a record's ASN is the origin's and not 0. A route with no origin has none. Internal.
fn same_as(asn: u32, origin: Option<u32>) -> bool
    ensures { result ≡ same_as asn (told_origin origin) }
{
    if asn == 0 {
        return false;
    }
    origin == Some(asn)
}

// Whether a record that covers a route matches it. Internal.
fn allows(family: Family, bytes: &[u8], len: u8, origin: Option<u32>) -> bool
    requires { length bytes.now ≡ vrp_size (bits family) }
    ensures { result ≡ allowed (vrp (bits family) bytes.now) len (told_origin origin) }
{
    let at = family.octets();
    if bytes[at + 1] < len {
        return false;
    }
    same_as(number4_at(bytes, at + 2), origin)
}

// What a record that is not bad is to a route. Internal.
pub fn weigh(family: Family, bytes: &[u8], prefix: Words, len: u8, origin: Option<u32>) -> Weight
    requires { (length bytes.now ≡ vrp_size (bits family)) × Good (bits family) bytes.now }
    ensures { result ≡ weighed (bits family) (vrp (bits family) bytes.now) (prefix_in (bits family) prefix) len (told_origin origin) }
{
    if !covering(family, bytes, prefix, len) {
        return Weight::Apart;
    }
    if !allows(family, bytes, len, origin) {
        return Weight::Covers;
    }
    Weight::Matches
}
