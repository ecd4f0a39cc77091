// A communities attribute as it goes out: without what is dropped, with a tag last (01, "Receipt" and "Sending"; RFC 8097).
ghost use Rattle.std.specs.Prelude.{◌≡◌, ◌++◌, ◌+◌, ◌≤◌, ◌<◌, length};
ghost use Rattle.rules.specs.Settings.{block_max};
ghost use Rattle.octets.specs.Buffer.{Stored};
ghost use Rattle.communities.specs.Tags.{drop_test, tag_bytes};
ghost use Rattle.rewriting.specs.Plan.{value_flags, header, left_of, community_bytes, CommunitySize, Whole, Leaving};

use attributes::values::{header_size, is_long};
use communities::left::put_left;
use communities::tags::{Dropping, put_tag, tag_size};
use octets::buffer::put;

// The flags of an attribute that gets a value of n bytes: a short form that n passes becomes long. Internal.
fn value_flags(flags: u8, n: usize) -> u8
    ensures { result ≡ value_flags flags n }
{
    if is_long(flags) {
        return flags;
    }
    if n <= 255 {
        return flags;
    }
    flags + 16
}

// Stores flags, type and length. Internal.
fn put_header(flags: u8, kind: u8, n: usize, out: &mut [u8], at: usize) -> usize
    requires { (n < 65536) × (at + length (header flags kind n) ≤ length out.old) }
    ensures { Stored out.old at (header flags kind n) result out.new }
{
    let new_flags = value_flags(flags, n);
    if is_long(new_flags) {
        let bytes = [new_flags, kind, (n / 256) as u8, (n % 256) as u8];
        return put(&bytes, out, at);
    }
    let bytes = [new_flags, kind, n as u8];
    put(&bytes, out, at)
}

// Stores what is left of the value of a communities attribute, and a tag. Internal.
fn put_value(a: &[u8], dropping: Dropping, state: u8, out: &mut [u8], at: usize) -> usize
    requires { (Whole a.now) × (at + length (left_of (drop_test dropping) a.now ++ tag_bytes state) ≤ length out.old) }
    ensures { Stored out.old at (left_of (drop_test dropping) a.now ++ tag_bytes state) result out.new }
{
    let h = header_size(a[0]);
    let w = put_left(dropping, &a[h..], out, at);
    put_tag(state, out, w)
}

// How many bytes a communities attribute has as it goes out, whatever is dropped, where `left` bytes of communities are left.
// Internal.
pub fn community_size(a: &[u8], left: usize, state: u8) -> usize
    requires { (Whole a.now) × (left ≤ length a.now) × (length a.now ≤ block_max) }
    ensures { (CommunitySize a.now left state result) × (result ≤ left + 12) }
{
    if left == 0 {
        return 0;
    }
    let n = left + tag_size(state);
    header_size(value_flags(a[0], n)) + n
}

// Stores it. Internal.
pub fn put_community(
    a: &[u8],
    left: usize,
    dropping: Dropping,
    state: u8,
    out: &mut [u8],
    at: usize,
) -> usize
    requires { (Leaving (drop_test dropping) a.now left) × (at + length (community_bytes (drop_test dropping) state a.now) ≤ length out.old) }
    ensures { Stored out.old at (community_bytes (drop_test dropping) state a.now) result out.new }
{
    if left == 0 {
        return at;
    }
    let n = left + tag_size(state);
    let w = put_header(a[0], a[1], n, out, at);
    put_value(a, dropping, state, out, w)
}
