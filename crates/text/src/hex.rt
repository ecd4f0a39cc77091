// Hexadecimal text (01, "The desk program").
ghost use Rattle.std.specs.Prelude.{◌≡◌, ◌+◌, ◌*◌, ◌%◌, ◌≤◌, ◌<◌, length};
ghost use Rattle.rules.specs.Bytes.{every, over};
ghost use Rattle.rules.specs.Text.{digits_max, digit, is_digit, upper_digit, to_hex};
ghost use Rattle.octets.specs.Buffer.{Stored};
ghost use Rattle.text.specs.Hex.{spelled, Read};

use octets::buffer::put_byte;

// A readable line has at most so many digits.
pub const DIGITS_MAX: usize = 8192;

// The value of a hex digit of either case, 16 for any other byte, as `Text.digit` has it.
fn digit_of(b: u8) -> u8
    ensures { (result ≡ digit b) × (result ≤ 16) }
{
    let decimal = if b < 48 { 16 } else { b - 48 };
    let upper = if b < 65 { 16 } else { b - 55 };
    let letter = if b < 97 { upper } else { b - 87 };
    let value = if b < 58 { decimal } else { letter };
    if value < 16 { value } else { 16 }
}

// Stores the bytes that a line's pairs of digits spell, up to the first pair with a bad digit, and says whether there is none.
// Internal.
pub fn decode(line: &[u8], raw: &mut [u8]) -> bool
    requires { (length line.now % 2 ≡ 0) × (length line.now ≤ 2 * length raw.old) }
    ensures { (result ≡ every is_digit line.now) × (raw.new ≡ over (spelled line.now) raw.old) }
{
    for (n, pair) in line.chunks_exact(2).enumerate() {
        let high = digit_of(pair[0]);
        let low = digit_of(pair[1]);
        if 15 < high {
            return false;
        }
        if 15 < low {
            return false;
        }
        raw[n] = 16 * high + low;
    }
    true
}

// Whether a line is readable, and then the bytes that it spells at the start of `raw`. Internal.
pub fn read_line(line: &[u8], raw: &mut [u8]) -> bool
    requires { digits_max ≤ 2 * length raw.old }
    ensures { Read line.now result raw.new }
{
    if line.len() < 1 {
        return false;
    }
    if DIGITS_MAX < line.len() {
        return false;
    }
    if line.len() % 2 != 0 {
        return false;
    }
    decode(line, raw)
}

// The upper-case digit of a value below 16. Internal.
fn upper_digit(d: u8) -> u8
    requires { d < 16 }
    ensures { result ≡ upper_digit d }
{
    if d < 10 { 48 + d } else { 55 + d }
}

// Stores bytes as upper-case digits. Internal.
pub fn put_hex(src: &[u8], out: &mut [u8], at: usize) -> usize
    requires { at + 2 * length src.now ≤ length out.old }
    ensures { Stored out.old at (to_hex src.now) result out.new }
{
    let mut w = at;
    for b in src {
        w = put_byte(upper_digit(b / 16), out, w);
        w = put_byte(upper_digit(b % 16), out, w);
    }
    w
}
