// Choosing one route for a route-server client, and comparing two (01, "Choosing a route"; source 002).
//
// Candidates come as a table of 17 bytes each, numbers high byte first: where the block begins in the buffer 4, how many bytes it
// has 4, state 1, the sender's identifier 4 and address 4.
#![tactic(auto)]

pub mod best;
pub mod keys;
pub mod offers;

ghost use Rattle.std.specs.Prelude.{◌≡◌, [], Err};
ghost use Rattle.rules.specs.Answers.{told, answer_number, beside_number};
ghost use Rattle.rules.specs.declared.Refusal.TheVariants.{BadCandidate};
ghost use Rattle.rules.specs.Choice.{choose_in, better, told_chosen, Compared};

use attributes::read;
use best::take;
use keys::{Sender, goes_before, keys_of};
use offers::{OFFER_SIZE, out_of_range, read_offer};
use rules::{CANDIDATES_MAX, Chosen, Refusal};
use settings::modes::mode_meant;
use settings::ranges::mode_ok;

// What comparing two candidates tells: the winner's index, or the refusal of the first bad one; and the winner's own block, or on a refusal
// an empty part of the first candidate's.
#[derive(Clone, Copy)]
pub struct Comparison<'a> {
    pub told: Result<usize, Refusal>,
    pub shown: &'a [u8],
}

// The route for the client with this address, among the candidates of a table.
pub fn choose(mode: u8, client: u32, buffer: &[u8], offers: &[u8]) -> Result<Chosen, Refusal>
    ensures { told_chosen result ≡ choose_in mode client buffer.now offers.now }
{
    if !mode_ok(mode) {
        return Err(Refusal::BadSetting);
    }
    let count = offers.len() / OFFER_SIZE;
    if offers.len() % OFFER_SIZE != 0 || CANDIDATES_MAX < count {
        return Err(Refusal::BadLength);
    }
    let meant = mode_meant(mode);
    let mut best = None;
    for (index, bytes) in offers.chunks_exact(OFFER_SIZE).enumerate() {
        let offer = read_offer(bytes);
        let start = offer.start as usize;
        let end = start + offer.size as usize;
        if buffer.len() < end {
            return Err(Refusal::BadCandidate(index));
        }
        let block = &buffer[start..end];
        if out_of_range(block.len(), offer.state) {
            return Err(Refusal::BadCandidate(index));
        }
        let Ok(layout) = read(block) else {
            return Err(Refusal::BadCandidate(index));
        };
        best = take(best, meant, client, index, offer, block, layout);
    }
    let Some(route) = best else {
        return Err(Refusal::NoRoute);
    };
    Ok(Chosen {
        index: route.index,
        left: route.left,
    })
}

// What comparing tells of a bad candidate, the first or the second.
fn bad<'a>(index: usize, first: &'a [u8]) -> Comparison<'a>
    ensures { (result.told ≡ Err (BadCandidate index)) × ((result.shown.ref_ptr ≡ first.entry.ref_ptr) × (result.shown.now ≡ [])) }
{
    Comparison {
        told: Err(Refusal::BadCandidate(index)),
        shown: &first[..0],
    }
}

// The better of two candidates, by the order alone.
pub fn better<'a>(a: &'a [u8], sender: Sender, b: &'a [u8], other: Sender) -> Comparison<'a>
    ensures { let decided = better (record { block = a.now; state = sender.state; identifier = sender.identifier; address = sender.address }) (record { block = b.now; state = other.state; identifier = other.identifier; address = other.address }) in (told result.told ≡ decided)
        × Compared decided a.entry b.entry result.shown (answer_number (told result.told)) (beside_number (told result.told)) }
{
    if out_of_range(a.len(), sender.state) {
        return bad(0, a);
    }
    let Ok(layout) = read(a) else {
        return bad(0, a);
    };
    if out_of_range(b.len(), other.state) {
        return bad(1, a);
    }
    let Ok(places) = read(b) else {
        return bad(1, a);
    };
    let x = keys_of(a, layout, sender.identifier, sender.address);
    let y = keys_of(b, places, other.identifier, other.address);
    if goes_before(y, x) {
        return Comparison {
            told: Ok(1),
            shown: b,
        };
    }
    Comparison {
        told: Ok(0),
        shown: a,
    }
}
