// Lines cut from input that comes in pieces of any size (01, "The desk program"). A line that has begun is held in memory that the
// caller lends, `line`, from one piece to the next.
#![tactic(auto)]

ghost use Rattle.std.specs.Prelude.{◌≡◌, ◌++◌, ◌≤◌, length, take};
ghost use Rattle.input_lines.specs.Lines.{held_max, LineEnd, Holds, Took};

use octets::buffer::put;
use text::hex::DIGITS_MAX;

// What ends a line.
pub const LINE_FEED: u8 = 10;

// Of a line at most so many bytes are held: they tell that it is too long.
pub const HELD_MAX: usize = DIGITS_MAX + 1;

// What one cut gives: how many bytes of the piece it took, how many are held of the line then, and whether the line has ended.
#[derive(Clone, Copy)]
pub struct Cut {
    pub taken: usize,
    pub held: usize,
    pub ended: bool,
}

// Where the first line of some bytes ends: at a line feed, or at their end.
fn line_end(s: &[u8]) -> usize
    ensures { LineEnd s.now result }
{
    for (i, b) in s.iter().enumerate() {
        if *b == LINE_FEED {
            return i;
        }
    }
    s.len()
}

// Holds some bytes more of a line, as many as fit, and gives how many are held then. Internal.
fn hold(s: &[u8], line: &mut [u8], held: usize) -> usize
    requires { (length line.old ≡ held_max) × (held ≤ held_max) }
    ensures { (take result line.new ≡ take held_max (take held line.old ++ s.now)) × (result ≤ held_max) }
{
    if s.len() <= HELD_MAX - held {
        return put(s, line, held);
    }
    put(&s[..HELD_MAX - held], line, held)
}

// Takes the bytes of a piece up to and with its first line feed, or all of them, and holds them, but for the line feed, behind the
// `held` bytes of the line that has begun. Internal.
pub fn cut_line(piece: &[u8], line: &mut [u8], held: usize) -> Cut
    requires { Holds line.old held }
    ensures { Took line.old held piece.now result line.new }
{
    let n = line_end(piece);
    let held = hold(&piece[..n], line, held);
    if n == piece.len() {
        return Cut {
            taken: n,
            held,
            ended: false,
        };
    }
    Cut {
        taken: n + 1,
        held,
        ended: true,
    }
}
