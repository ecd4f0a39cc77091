// What answering a frame gives: how many bytes the result has, at the start of the memory lent for it, or a refusal; and the fourth field of
// the line that goes out. All of it is internal.
ghost use Rattle.std.specs.Prelude.{◌≡◌};
ghost use Rattle.frames.specs.Replying.{plain, dashed, numbered};

use rules::Refusal;

// The fourth field of the line that goes out (02, Q-8): how many tags are thrown out, a dash where there is no such number, or none.
#[derive(Clone, Copy)]
pub enum Field {
    Number(usize),
    Dash,
    Absent,
}

// A reply, and the fourth field beside it.
#[derive(Clone, Copy)]
pub struct Outcome {
    pub reply: Result<usize, Refusal>,
    pub field: Field,
}

// A reply to a frame that is no receipt: there is no fourth field. Internal.
pub fn plain(reply: Result<usize, Refusal>) -> Outcome
    ensures { result ≡ plain reply }
{
    Outcome {
        reply,
        field: Field::Absent,
    }
}

// A receipt refused with no number to tell. Internal.
pub fn dashed(refusal: Refusal) -> Outcome
    ensures { result ≡ dashed refusal }
{
    Outcome {
        reply: Err(refusal),
        field: Field::Dash,
    }
}

// A receipt answered with a number to tell. Internal.
pub fn numbered(reply: Result<usize, Refusal>, thrown_out: usize) -> Outcome
    ensures { result ≡ numbered reply thrown_out }
{
    Outcome {
        reply,
        field: Field::Number(thrown_out),
    }
}
