// AS_PATH: segments of a type, a count and that many four-byte ASNs (RFC 4271 section 4.3; 01, "Reading an attribute block").
#![tactic(auto)]

ghost use Rattle.std.specs.Prelude.{◌≡◌, [], ◌∷◌, ◌≤◌, ◌<◌, length, leb, MatchOption};
ghost use Rattle.rules.specs.Bytes.{every};
ghost use Rattle.rules.specs.Attributes.{segment_size, segment_ok, segments, as_path_ok, asns};
ghost use Rattle.rules.specs.Origin.{origin_in, final_origin, told_origin};
ghost use Rattle.rules.specs.Choice.{path_length};
ghost use Rattle.as_path.specs.Splitting.{Split};

use octets::{number4, wide};

// Segment types (RFC 4271 section 4.3).
const AS_SET: u8 = 1;

const AS_SEQUENCE: u8 = 2;

// The segment that a path begins with, and the path after it; none where the path is too short for one.
fn split_segment(path: &[u8]) -> Option<(&[u8], &[u8])>
    ensures { MatchOption result (length path.now < segment_size path.now) (λ parts. Split path.now parts.0.now parts.1.now) }
{
    if path.len() < 2 {
        return None;
    }
    let size = 2 + 4 * wide(path[1]);
    if path.len() < size {
        return None;
    }
    Some(path.split_at(size))
}

// No ASN of a segment is 0. Internal.
fn asns_ok(g: &[u8]) -> bool
    requires { 2 ≤ length g.now }
    ensures { result ≡ every (leb 1) (asns g.now) }
{
    for asn in g[2..].chunks_exact(4) {
        if number4(asn) < 1 {
            return false;
        }
    }
    true
}

// A segment is a set or a sequence, has an ASN, and no ASN is 0. Internal.
fn segment_ok(g: &[u8]) -> bool
    requires { 2 ≤ length g.now }
    ensures { result ≡ segment_ok g.now }
{
    let kind = g[0];
    if kind != AS_SET {
        if kind != AS_SEQUENCE {
            return false;
        }
    }
    if g[1] < 1 {
        return false;
    }
    asns_ok(g)
}

// An AS_PATH is whole segments, each well formed.
pub fn as_path_ok(path: &[u8]) -> bool
    ensures { result ≡ as_path_ok path.now }
{
    let mut rest = path;
    while !rest.is_empty() {
        let Some((segment, after)) = split_segment(rest) else {
            return false;
        };
        if !segment_ok(segment) {
            return false;
        }
        rest = after;
    }
    true
}

// The length of a path of one segment. Internal.
fn segment_length(g: &[u8]) -> usize
    requires { 2 ≤ length g.now }
    ensures { result ≡ path_length (g.now ∷ []) }
{
    if g[0] == AS_SET {
        return 1;
    }
    wide(g[1])
}

// How long a path is for choosing: a set counts 1.
pub fn path_length(path: &[u8]) -> usize
    ensures { result ≡ path_length (segments path.now) }
{
    let mut total = 0;
    let mut rest = path;
    while let Some((segment, after)) = split_segment(rest) {
        total += segment_length(segment);
        rest = after;
    }
    total
}

// The origin that a path has by its final segment. Internal.
fn final_origin(g: &[u8]) -> Option<u32>
    requires { length g.now ≡ segment_size g.now }
    ensures { told_origin result ≡ final_origin g.now }
{
    if g[0] != AS_SEQUENCE {
        return None;
    }
    if g.len() < 6 {
        return Some(0);
    }
    let last = g.len() - 4;
    Some(number4(&g[last..]))
}

// The origin of a path: the last ASN of a final sequence, none for a final set, the caller's own AS for an empty path.
pub fn path_origin(path: &[u8], own: u32) -> Option<u32>
    ensures { told_origin result ≡ origin_in own (segments path.now) }
{
    let mut origin = Some(own);
    let mut rest = path;
    while let Some((segment, after)) = split_segment(rest) {
        origin = final_origin(segment);
        rest = after;
    }
    origin
}
