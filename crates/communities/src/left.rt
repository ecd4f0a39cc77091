// What is left of the value of a communities attribute once some are dropped.
ghost use Rattle.std.specs.Prelude.{◌≡◌, ◌++◌, ◌+◌, ◌≤◌, ◌<◌, ◌^◌, length};
ghost use Rattle.rules.specs.Bytes.{same_bytes};
ghost use Rattle.rules.specs.Changes.{drop_from, thrown_out};
ghost use Rattle.octets.specs.Buffer.{Stored};
ghost use Rattle.communities.specs.Tags.{drop_test, kept, tag_bytes};
ghost use Rattle.communities.specs.Walks.{SiftedMore};

use super::findings::Sifted;
use super::tags::{COMMUNITY_SIZE, Dropping, is_erroneous, same_tag};
use octets::buffer::put;
use octets::same_bytes;

// What is found so far, and one community more: only what is dropped can be thrown out. Internal.
fn sift_one(dropping: Dropping, so_far: Sifted, c: &[u8]) -> Sifted
    requires { (length c.now ≡ 8) × (so_far.left + 8 < 2 ^ 64) × (so_far.thrown_out + 1 < 2 ^ 64) }
    ensures { SiftedMore (drop_test dropping) so_far c.now result }
{
    let left = so_far.left;
    let thrown_out = so_far.thrown_out;
    if !dropping.drops(c) {
        return Sifted {
            left: left + COMMUNITY_SIZE,
            thrown_out,
        };
    }
    if is_erroneous(c) {
        return Sifted {
            left,
            thrown_out: thrown_out + 1,
        };
    }
    so_far
}

// How many bytes of communities are left of a value, and how many of its tags are thrown out, in one walk.
pub fn sift(dropping: Dropping, v: &[u8]) -> Sifted
    ensures { (result.left ≡ length (drop_from (drop_test dropping) v.now)) × (result.thrown_out ≡ thrown_out v.now) }
{
    let mut sifted = Sifted {
        left: 0,
        thrown_out: 0,
    };
    for c in v.chunks_exact(COMMUNITY_SIZE) {
        sifted = sift_one(dropping, sifted, c);
    }
    sifted
}

// Stores what is left of a community: its eight bytes are read before any is stored, so that they go in one move. Internal.
fn put_kept(dropping: Dropping, c: &[u8], out: &mut [u8], at: usize) -> usize
    requires { (length c.now ≡ 8) × (at + length (kept (drop_test dropping) c.now) ≤ length out.old) }
    ensures { Stored out.old at (kept (drop_test dropping) c.now) result out.new }
{
    if dropping.drops(c) {
        return at;
    }
    let bytes = [c[0], c[1], c[2], c[3], c[4], c[5], c[6], c[7]];
    put(&bytes, out, at)
}

// Stores the communities that are left. Internal.
pub fn put_left(dropping: Dropping, v: &[u8], out: &mut [u8], at: usize) -> usize
    requires { at + length (drop_from (drop_test dropping) v.now) ≤ length out.old }
    ensures { Stored out.old at (drop_from (drop_test dropping) v.now) result out.new }
{
    let mut w = at;
    for c in v.chunks_exact(COMMUNITY_SIZE) {
        w = put_kept(dropping, c, out, w);
    }
    w
}

// Whether two communities are the same. Their first two bytes are compared by themselves: the test of what is dropped has just read them,
// and with them apart the others are compared four at a time. Internal.
fn same_community(c: &[u8], d: &[u8]) -> bool
    requires { (length c.now ≡ 8) × (length d.now ≡ 8) }
    ensures { result ≡ same_bytes c.now d.now }
{
    if c[0] != d[0] {
        return false;
    }
    if c[1] != d[1] {
        return false;
    }
    same_bytes(&c[2..8], &d[2..8])
}

// Whether some bytes are the communities that are left of a value, and a tag of a state last. The value is walked and nothing is copied.
pub fn same_left(dropping: Dropping, v: &[u8], state: u8, t: &[u8]) -> bool
    ensures { result ≡ same_bytes (drop_from (drop_test dropping) v.now ++ tag_bytes state) t.now }
{
    let mut w = 0;
    for c in v.chunks_exact(COMMUNITY_SIZE) {
        if dropping.drops(c) {
            continue;
        }
        if t.len() - w < COMMUNITY_SIZE {
            return false;
        }
        if !same_community(c, &t[w..w + COMMUNITY_SIZE]) {
            return false;
        }
        w += COMMUNITY_SIZE;
    }
    same_tag(state, &t[w..])
}
