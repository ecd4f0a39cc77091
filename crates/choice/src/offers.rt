// Candidates as a table offers them, and which are bad by their size or state alone (01, "Choosing a route").
ghost use Rattle.std.specs.Prelude.{◌≡◌, not, ◌||◌, ltb, length};
ghost use Rattle.rules.specs.Settings.{block_max, state_ok};
ghost use Rattle.rules.specs.Choice.{offer_size, offer};

use octets::number4_at;
use rules::{BLOCK_MAX, Offer};
use settings::ranges::state_ok;

// How many bytes a candidate has in the table.
pub const OFFER_SIZE: usize = 17;

// Reads a candidate's bytes in the table. Internal.
pub fn read_offer(bytes: &[u8]) -> Offer
    requires { length bytes.now ≡ offer_size }
    ensures { result ≡ offer bytes.now }
{
    Offer {
        start: number4_at(bytes, 0),
        size: number4_at(bytes, 4),
        state: bytes[8],
        identifier: number4_at(bytes, 9),
        address: number4_at(bytes, 13),
    }
}

// A candidate is bad for its size, "over 4,073", or for its "state above 3".
pub fn out_of_range(size: usize, state: u8) -> bool
    ensures { result ≡ (ltb block_max size || not (state_ok state)) }
{
    if BLOCK_MAX < size {
        return true;
    }
    !state_ok(state)
}
