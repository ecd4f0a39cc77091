// The desk program: reads standard input to its end, hands it to the byte machine of `desk_lines`, and writes what that says.
// Nothing is known here of what the bytes mean. That a piece is handed over whole is proved; that those read are handed over, and
// what is said of them is written, is tested.
#![tactic(auto)]

ghost use Rattle.std.specs.Prelude.{◌≡◌, ◌+◌, ◌<◌, ◌^◌, length};
ghost use Rattle.desk_lines.specs.Sizes.{answer_max};
ghost use Rattle.desk_lines.specs.Machine.{emptied, Ready, Lent, HandedOver};

use desk_lines::sizes::FRAME_MAX;
use desk_lines::state::State;
use desk_lines::{begin, feed, finish};
use desk_memory::sizes::TABLES_MAX;
use frames::sizes::RESULT_MAX;
use input_lines::HELD_MAX;
use std::io::{Print, Read};

// The bytes that are read, and written, at once at most.
const PIECE_MAX: usize = 65536;

// How many pieces are read at most: no run uses them up, and with pieces of `PIECE_MAX` bytes the line number does not wrap.
const TURNS_MAX: u64 = 140737488355328;

// The state with nothing left to write.
fn emptied(state: State) -> State
    ensures { result ≡ emptied state }
{
    State { wrote: 0, ..state }
}

// Hands a piece over, writes what it says, and gives the state after it, with nothing left to write. A write that fails ends it, with the
// state after what was fed.
fn hand_over(
    piece: &[u8],
    state: State,
    line: &mut [u8],
    raw: &mut [u8],
    made: &mut [u8],
    tables: &mut [u8],
    out: &mut [u8],
    to: &impl Print,
) -> Result<State, State>
    requires { (Ready state tables.old line.old) × (state.number + length piece.now < 2 ^ 64)
        × (Lent raw.old made.old out.old answer_max) × (state.wrote ≡ 0) }
    ensures { HandedOver state tables.old line.old piece.now result tables.new line.new }
{
    let mut at = 0;
    let mut now = state;
    // Each turn takes as many bytes as `feed` says: no iterator gives such parts.
    while at < piece.len() {
        let progress = feed(&piece[at..], now, line, raw, made, tables, out);
        at += progress.taken;
        let after = progress.state;
        now = emptied(after);
        if to.write_all(&out[..after.wrote]).is_err() {
            return Err(now);
        }
    }
    Ok(now)
}

// Says that standard input can't be read.
fn say_unread(to: &impl Print) {
    let _ = to.write_all(b"desk: read error\n");
}

// Answers standard input line by line. Nothing says that an input ends, so the pieces are counted.
fn main(rt: HostRuntime) {
    let to = rt.stdout();
    let mut from = rt.stdin();
    let mut chunk = [0u8; PIECE_MAX];
    let mut line = [0u8; HELD_MAX];
    let mut raw = [0u8; FRAME_MAX];
    let mut made = [0u8; RESULT_MAX];
    let mut tables = [0u8; TABLES_MAX];
    let mut out = [0u8; PIECE_MAX];
    let mut state = begin();
    for _ in 0..TURNS_MAX {
        let Ok(n) = from.read(&mut chunk) else {
            say_unread(&rt.stderr());
            return;
        };
        if n == 0 {
            break;
        }
        let Ok(after) = hand_over(
            &chunk[..n],
            state,
            &mut line,
            &mut raw,
            &mut made,
            &mut tables,
            &mut out,
            &to,
        ) else {
            return;
        };
        state = after;
    }
    let wrote = finish(state, &line, &mut raw, &mut made, &mut tables, &mut out);
    let _ = to.write_all(&out[..wrote]);
}
