// The sizes of the memory that a desk is lent beside that of `frames`. The contracts name the same in specs/Sizes.antt: a constant of
// the language is not seen there.
use frames::sizes::RESULT_MAX;
use text::hex::DIGITS_MAX;

// The bytes of the longest frame, which `raw` holds.
pub const FRAME_MAX: usize = DIGITS_MAX / 2;

// The bytes that the line for one answer may take at most: a number of 64 bits, a space, the answer and its result in hex, a space and
// a number of 64 bits, and a line feed.
pub const ANSWER_MAX: usize = 20 + 1 + (2 + 2 * RESULT_MAX) + 21 + 1;
