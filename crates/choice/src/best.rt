// The best route so far, and what the next candidate makes of it: it is removed, or the two meet (01, "Choosing a route").
ghost use Rattle.std.specs.Prelude.{◌≡◌, ◌<◌};
ghost use Rattle.rules.specs.Settings.{candidates_max};
ghost use Rattle.choice.specs.Keys.{Reads};
ghost use Rattle.choice.specs.Bests.{is_removed, rank, met, left_in, offered, taken};

use super::keys::{Keys, goes_before, keys_of};
use attributes::layout::Layout;
use rules::Offer;
use settings::modes::{DROP_INVALID, PRIORITISE};
use settings::states::{INVALID, NOT_FOUND, UNAVAILABLE, VALID};

// The best route so far: how many are left of its class, it among them, its class, its index and its keys.
#[derive(Clone, Copy)]
pub struct BestRoute {
    pub left: usize,
    pub rank: usize,
    pub index: usize,
    pub keys: Keys,
}

// Whether a candidate is removed whatever the others are: its block has an OTC, it is the client's own, or the mode drops it.
fn removed(mode: u8, client: u32, otc: bool, state: u8, address: u32) -> bool
    ensures { result ≡ is_removed mode client otc state address }
{
    if otc {
        return true;
    }
    if address == client {
        return true;
    }
    if mode != DROP_INVALID {
        return false;
    }
    state == INVALID
}

// The class by which a mode prefers a state: 0; then 1 and 3; then 2. One class for all where the mode does not prioritise.
fn rank_of(mode: u8, state: u8) -> usize
    ensures { result ≡ rank mode state }
{
    if mode != PRIORITISE {
        return 0;
    }
    match state {
        VALID => 0,
        NOT_FOUND => 1,
        UNAVAILABLE => 1,
        _ => 2,
    }
}

// The best route so far meets the next candidate. Internal.
fn meet(best: BestRoute, rank: usize, index: usize, keys: Keys) -> BestRoute
    requires { best.left < candidates_max }
    ensures { result ≡ met best rank index keys }
{
    if best.rank < rank {
        return best;
    }
    if rank < best.rank {
        return BestRoute {
            left: 1,
            rank,
            index,
            keys,
        };
    }
    let left = best.left + 1;
    let holder = best.keys;
    if goes_before(keys, holder) {
        return BestRoute {
            left,
            rank,
            index,
            keys,
        };
    }
    BestRoute {
        left,
        rank,
        index: best.index,
        keys: holder,
    }
}

// The best route so far, None where there is none yet, once one candidate more is removed or met, of which the block reads cleanly. Internal.
pub fn take(
    best: Option<BestRoute>,
    mode: u8,
    client: u32,
    index: usize,
    offer: Offer,
    block: &[u8],
    layout: Layout,
) -> Option<BestRoute>
    requires { Reads block.now layout × (left_in best < candidates_max) }
    ensures { result ≡ taken mode client best index (offered offer block.now) }
{
    let otc = layout.otc < block.len();
    if removed(mode, client, otc, offer.state, offer.address) {
        return best;
    }
    let rank = rank_of(mode, offer.state);
    let keys = keys_of(block, layout, offer.identifier, offer.address);
    let Some(route) = best else {
        return Some(BestRoute {
            left: 1,
            rank,
            index,
            keys,
        });
    };
    Some(meet(route, rank, index, keys))
}
