// One line: read, answered, and the line that goes out (01, "The desk program"; 02, Q-8).
ghost use Rattle.std.specs.Prelude.{◌≡◌, ◌+◌, ◌*◌, ◌≤◌, ◌<◌, ◌^◌, length};
ghost use Rattle.rules.specs.Answers.{done};
ghost use Rattle.rules.specs.Desk.{shown_result};
ghost use Rattle.octets.specs.Buffer.{Stored};
ghost use Rattle.frames.specs.Sizes.{result_max};
ghost use Rattle.desk_lines.specs.Sizes.{field_max, answer_max};
ghost use Rattle.frames.specs.Replying.{replied, Within, shown_field};
ghost use Rattle.desk_memory.specs.Keeping.{Keeps};
ghost use Rattle.desk_lines.specs.Machine.{Lent, Answered, shown_answer, told_line};

use super::state::State;
use desk_memory::{answer_frame, keep_frame};
use frames::reply::{Field, Outcome, plain};
use input_lines::LINE_FEED;
use octets::buffer::{put, put_byte};
use rules::Refusal;
use settings::answers::refusal_number;
use text::decimal::put_decimal;
use text::hex::{put_hex, read_line};

// Characters of a line that goes out.
const SPACE: u8 = b' ';

const DASH: u8 = b'-';

// Stores a result of answer 0, in hex, or a dash where there is no byte to show. Internal.
fn put_result(res: &[u8], out: &mut [u8], at: usize) -> usize
    requires { (length res.now ≤ result_max) × (at + 2 * result_max ≤ length out.old) }
    ensures { (Stored out.old at (shown_result (done res.now)) result out.new) × (result ≤ at + 2 * result_max) }
{
    if res.is_empty() {
        return put_byte(DASH, out, at);
    }
    put_hex(res, out, at)
}

// Stores an answer: its number, and its result or a dash. Internal.
fn put_reply(reply: Result<usize, Refusal>, made: &[u8], out: &mut [u8], at: usize) -> usize
    requires { (Within made.now reply) × (at + 2 * result_max + 2 ≤ length out.old) }
    ensures { (Stored out.old at (shown_answer (replied made.now reply)) result out.new) × (result ≤ at + 2 * result_max + 2) }
{
    match reply {
        Err(refusal) => {
            let w = put_decimal(refusal_number(refusal) as u64, out, at);
            put(b" -", out, w)
        }
        Ok(n) => {
            let w = put(b"0 ", out, at);
            put_result(&made[..n], out, w)
        }
    }
}

// Stores the fourth field (02, Q-8), where there is one. Internal.
fn put_field(field: Field, out: &mut [u8], at: usize) -> usize
    requires { at + field_max ≤ length out.old }
    ensures { (Stored out.old at (shown_field field) result out.new) × (result ≤ at + field_max) }
{
    match field {
        Field::Absent => at,
        Field::Dash => put(b" -", out, at),
        Field::Number(n) => {
            let w = put_byte(SPACE, out, at);
            put_decimal(n as u64, out, w)
        }
    }
}

// Stores the line that goes out. Internal.
fn put_line(number: u64, outcome: Outcome, made: &[u8], out: &mut [u8], at: usize) -> usize
    requires { (Within made.now outcome.reply) × (at + answer_max ≤ length out.old) }
    ensures { (Stored out.old at (told_line number made.now outcome) result out.new) × (result ≤ at + answer_max) }
{
    let v = put_decimal(number, out, at);
    let w = put_byte(SPACE, out, v);
    let x = put_reply(outcome.reply, made, out, w);
    let y = put_field(outcome.field, out, x);
    put_byte(LINE_FEED, out, y)
}

// Answers a line. What `raw` and `made` hold afterwards is of no account. Internal.
pub fn answer_line(
    state: State,
    line: &[u8],
    raw: &mut [u8],
    made: &mut [u8],
    tables: &mut [u8],
    out: &mut [u8],
) -> State
    requires { (state.number + 1 < 2 ^ 64) × (Keeps state.kept tables.old) × (Lent raw.old made.old out.old (state.wrote + answer_max)) }
    ensures { Answered state tables.old line.now out.old result tables.new out.new }
{
    let number = state.number + 1;
    let at = state.wrote;
    if !read_line(line, raw) {
        let unreadable = plain(Err(Refusal::Unreadable));
        let wrote = put_line(number, unreadable, made, out, at);
        return State {
            number,
            held: 0,
            wrote,
            ..state
        };
    }
    let frame = &raw[..line.len() / 2];
    let outcome = answer_frame(state.kept, tables, frame, made);
    let wrote = put_line(number, outcome, made, out, at);
    let kept = keep_frame(state.kept, frame, outcome.reply.is_ok(), tables);
    State {
        number,
        held: 0,
        wrote,
        kept,
    }
}
