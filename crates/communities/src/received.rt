// The received tag (01, "Origin state"; 02, Q-8 and Q-11; RFC 8097 section 2; 002 section 4.4).
ghost use Rattle.std.specs.Prelude.{◌≡◌, ◌+◌, ◌<◌, ◌^◌, length};
ghost use Rattle.rules.specs.Changes.{drop_from, thrown_out};
ghost use Rattle.rules.specs.Origin.{tag_values, tag_state};
ghost use Rattle.communities.specs.Tags.{drop_test};
ghost use Rattle.communities.specs.Received.{greater};
ghost use Rattle.communities.specs.Walks.{ReadMore};

use super::findings::Tags;
use super::tags::{COMMUNITY_SIZE, Dropping, is_erroneous, is_tag};
use settings::states::UNAVAILABLE;

// The greater of a state told so far and a value; any value where none is told yet. Internal.
fn greater_of(state: u8, value: u8) -> u8
    ensures { result ≡ greater state value }
{
    if state == UNAVAILABLE {
        return value;
    }
    if state < value { value } else { state }
}

// What is told so far, and one community more: values above 2 are thrown out. Internal.
fn read_one(so_far: Tags, c: &[u8]) -> Tags
    requires { (length c.now ≡ 8) × (so_far.thrown_out + 1 < 2 ^ 64) }
    ensures { ReadMore so_far c.now result }
{
    let state = so_far.state;
    let thrown_out = so_far.thrown_out;
    if !is_tag(c) {
        return so_far;
    }
    if is_erroneous(c) {
        return Tags {
            state,
            thrown_out: thrown_out + 1,
        };
    }
    Tags {
        state: greater_of(state, c[7]),
        thrown_out,
    }
}

// The state that the tags of a communities value tell, the greatest, or unavailable where there is none; and how many are thrown out.
pub fn read_tags(v: &[u8]) -> Tags
    ensures { (result.state ≡ tag_state (tag_values v.now)) × (result.thrown_out ≡ thrown_out v.now) }
{
    let mut tags = Tags {
        state: UNAVAILABLE,
        thrown_out: 0,
    };
    for c in v.chunks_exact(COMMUNITY_SIZE) {
        tags = read_one(tags, c);
    }
    tags
}

// The state that the tags left tell once some are dropped. Where every tag is dropped no walk is made: none is left.
pub fn state_left(dropping: Dropping, v: &[u8]) -> u8
    ensures { result ≡ tag_state (tag_values (drop_from (drop_test dropping) v.now)) }
{
    match dropping {
        Dropping::AllTags => UNAVAILABLE,
        Dropping::ErroneousTags => read_tags(v).state,
    }
}
