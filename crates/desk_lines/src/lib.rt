// The desk's byte machine: takes input in pieces of any size, answers each line once it has ended, and carries a line that has
// not over to the next piece (01, "The desk program"). All that it needs is lent: `line` for the line that has begun, `raw` for a
// frame, `made` for a result, `tables` for the VRPs of both families, and `out`, whose caller writes it out when it is full.
#![tactic(auto)]

pub mod lines;
pub mod sizes;
pub mod state;

ghost use Rattle.std.specs.Prelude.{◌≡◌, [], ◌+◌, ◌≤◌, ◌<◌, ◌^◌, length};
ghost use Rattle.octets.specs.Buffer.{Stored};
ghost use Rattle.desk_lines.specs.Sizes.{answer_max};
ghost use Rattle.desk_lines.specs.Machine.{Ready, Lent, Progressed, begun, future};

use desk_memory::kept::Kept;
use input_lines::cut_line;
use lines::answer_line;
use sizes::ANSWER_MAX;
use state::{Progress, State};

// A desk before its first byte.
pub fn begin() -> State
    ensures { result ≡ begun }
{
    let kept = Kept {
        used: 0,
        used6: 0,
        session: None,
    };
    State {
        number: 0,
        held: 0,
        wrote: 0,
        kept,
    }
}

// Takes the bytes up to the end of a line, and answers it, or holds them where it has not ended. Internal.
fn feed_line(
    piece: &[u8],
    state: State,
    line: &mut [u8],
    raw: &mut [u8],
    made: &mut [u8],
    tables: &mut [u8],
    out: &mut [u8],
) -> Progress
    requires { (Ready state tables.old line.old) × (state.number + 1 < 2 ^ 64)
        × (Lent raw.old made.old out.old (state.wrote + answer_max)) }
    ensures { Progressed state tables.old line.old out.old
        piece.now result tables.new line.new out.new }
{
    let cut = cut_line(piece, line, state.held);
    let taken = cut.taken;
    let held = cut.held;
    if cut.ended {
        let state = answer_line(state, &line[..held], raw, made, tables, out);
        return Progress { taken, state };
    }
    let state = State { held, ..state };
    Progress { taken, state }
}

// Takes the bytes of a piece, up to its end or until `out` may have no room for one more answer. What `raw` and `made` hold
// afterwards, `line` past what is held and `tables` past the VRPs, is of no account. Internal.
pub fn feed(
    piece: &[u8],
    state: State,
    line: &mut [u8],
    raw: &mut [u8],
    made: &mut [u8],
    tables: &mut [u8],
    out: &mut [u8],
) -> Progress
    requires { (Ready state tables.old line.old) × (state.number + length piece.now < 2 ^ 64)
        × (Lent raw.old made.old out.old state.wrote) }
    ensures { Progressed state tables.old line.old out.old
        piece.now result tables.new line.new out.new }
{
    let mut at = 0;
    let mut now = state;
    // Each turn takes as many bytes as the line has, and how many were taken is told: no iterator gives such parts.
    while at < piece.len() {
        let wrote = now.wrote;
        if out.len() - wrote < ANSWER_MAX {
            break;
        }
        let progress = feed_line(&piece[at..], now, line, raw, made, tables, out);
        at += progress.taken;
        now = progress.state;
    }
    Progress {
        taken: at,
        state: now,
    }
}

// The end of the input: answers a line that has begun, and gives how many bytes of `out` are written then. Internal.
pub fn finish(
    state: State,
    line: &[u8],
    raw: &mut [u8],
    made: &mut [u8],
    tables: &mut [u8],
    out: &mut [u8],
) -> usize
    requires { (Ready state tables.old line.now) × (state.number + 1 < 2 ^ 64)
        × (Lent raw.old made.old out.old (state.wrote + answer_max)) }
    ensures { (Stored out.old state.wrote (future state tables.old line.now []) result out.new)
        × (result ≤ state.wrote + answer_max) }
{
    let held = state.held;
    if held == 0 {
        return state.wrote;
    }
    let answered = answer_line(state, &line[..held], raw, made, tables, out);
    answered.wrote
}
