// Answers as numbers, for callers in C and Rust: the answer number as the result, and through `beside` the number beside it.
#![tactic(auto)]

ghost use Rattle.std.specs.Prelude.{◌≡◌};
ghost use Rattle.std.proofs.Math.Option.{get_or};
ghost use Rattle.rules.specs.Answers.{refused, number, answer_number, beside_number, told, told_received, thrown_received, state_received, told_tag_read, thrown_read};
ghost use Rattle.rules.specs.Receipt.{ReceiptNumbers};
ghost use Rattle.rules.specs.OtherMake.{told_sent_check};
ghost use Rattle.rules.specs.Index.{told_looked_up, LookUpNumbers};
ghost use Rattle.rules.specs.Choice.{told_chosen, index_told, left_told};

use rules::{Chosen, Declined, LookedUp, Received, Refusal, TagRead};
use settings::answers::refusal_number;
use settings::states::UNAVAILABLE;

// The number beside a refusal; 0 where it has none.
fn beside_number(refusal: Refusal) -> usize
    ensures { result ≡ beside_number (refused refusal) }
{
    match refusal {
        Refusal::Ineligible(rule) => rule as usize,
        Refusal::Withheld(rule) => rule as usize,
        Refusal::Malformed(fault) => fault as usize,
        Refusal::BadVrp(index) => index,
        Refusal::BadCandidate(index) => index,
        _ => 0,
    }
}

// A refusal as numbers: its number as the result, and through `beside` the number beside it, 0 where it has none.
pub fn report_refusal(refusal: Refusal, beside: &mut usize) -> u8
    ensures { (result ≡ number refusal) × (beside.new ≡ beside_number (refused refusal)) }
{
    *beside = beside_number(refusal);
    refusal_number(refusal)
}

// An answer that tells one number, as numbers: its number as the result, and through `beside` the number beside it, what it tells on
// answer 0.
pub fn report(answer: Result<usize, Refusal>, beside: &mut usize) -> u8
    ensures { (result ≡ answer_number (told answer)) × (beside.new ≡ beside_number (told answer)) }
{
    match answer {
        Ok(number) => {
            *beside = number;
            0
        }
        Err(refusal) => report_refusal(refusal, beside),
    }
}

// A refusal that has no number of tags thrown out beside it, as numbers: likewise, and through `thrown_out` 0.
fn report_unnumbered(refusal: Refusal, beside: &mut usize, thrown_out: &mut usize) -> u8
    ensures { (result ≡ number refusal) × (beside.new ≡ beside_number (refused refusal)) × (thrown_out.new ≡ 0) }
{
    *thrown_out = 0;
    report_refusal(refusal, beside)
}

// An answer of receipt as numbers: likewise, with the length on answer 0, and through `thrown_out` how many tags are thrown out, 0
// where no such number is told, and through `state` the state handed on, 3, unavailable, where there is none.
pub fn report_received(
    answer: Result<Received, Declined>,
    beside: &mut usize,
    thrown_out: &mut usize,
    state: &mut usize,
) -> u8
    ensures { ReceiptNumbers (told_received answer) (thrown_received answer) (state_received answer)
        result beside.new thrown_out.new state.new }
{
    *state = UNAVAILABLE as usize;
    match answer {
        Ok(taken) => {
            *beside = taken.length;
            *thrown_out = taken.thrown_out;
            *state = taken.state;
            0
        }
        Err(
            Declined::Ineligible {
                rule,
                thrown_out: number,
            },
        ) => {
            *thrown_out = number;
            report_refusal(Refusal::Ineligible(rule), beside)
        }
        Err(Declined::Refused(refusal)) => report_unnumbered(refusal, beside, thrown_out),
    }
}

// An answer of the check of another make as numbers: likewise, with 1 for yes and 0 for no on answer 0.
pub fn report_sent_check(answer: Result<bool, Refusal>, beside: &mut usize) -> u8
    ensures { (result ≡ answer_number (told_sent_check answer)) × (beside.new ≡ beside_number (told_sent_check answer)) }
{
    match answer {
        Ok(allowed) => {
            *beside = usize::from(allowed);
            0
        }
        Err(reason) => report_refusal(reason, beside),
    }
}

// An answer of the tag reader as numbers: likewise, with the state on answer 0, and through `thrown_out` how many tags are thrown out,
// 0 on a refusal.
pub fn report_tag_read(
    answer: Result<TagRead, Refusal>,
    beside: &mut usize,
    thrown_out: &mut usize,
) -> u8
    ensures { (result ≡ answer_number (told_tag_read answer)) × (beside.new ≡ beside_number (told_tag_read answer))
        × (thrown_out.new ≡ get_or (thrown_read answer) 0) }
{
    match answer {
        Ok(tags) => {
            *beside = usize::from(tags.state);
            *thrown_out = tags.thrown_out;
            0
        }
        Err(refusal) => report_unnumbered(refusal, beside, thrown_out),
    }
}

// An answer of a look-up as numbers: likewise, with the state on answer 0, and through `visited` how many nodes were visited, 0 on a
// refusal.
pub fn report_looked_up(
    answer: Result<LookedUp, Refusal>,
    beside: &mut usize,
    visited: &mut usize,
) -> u8
    ensures { LookUpNumbers (told_looked_up answer) result beside.new visited.new }
{
    *visited = 0;
    match answer {
        Ok(found) => {
            *beside = found.state;
            *visited = found.visited;
            0
        }
        Err(refused) => report_refusal(refused, beside),
    }
}

// An answer of choosing as numbers: likewise, with the index on answer 0, and through `left` how many were left, 0 on a refusal.
pub fn report_chosen(answer: Result<Chosen, Refusal>, beside: &mut usize, left: &mut usize) -> u8
    ensures { (result ≡ answer_number (told_chosen answer)) × (beside.new ≡ beside_number (index_told (told_chosen answer))) × (left.new ≡ left_told (told_chosen answer)) }
{
    *left = 0;
    match answer {
        Ok(route) => {
            *beside = route.index;
            *left = route.left;
            0
        }
        Err(refused) => report_refusal(refused, beside),
    }
}
