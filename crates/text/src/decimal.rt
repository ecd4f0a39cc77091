// Decimal text (01, "The desk program").
ghost use Rattle.std.specs.Prelude.{◌+◌, ◌≤◌, length};
ghost use Rattle.rules.specs.Text.{decimal};
ghost use Rattle.octets.specs.Buffer.{Stored};

use octets::buffer::put_byte;

// Stores a number in decimal, at most 20 digits. Internal.
pub fn put_decimal(n: u64, out: &mut [u8], at: usize) -> usize
    requires { at + 20 ≤ length out.old }
    ensures { Stored out.old at (decimal n) result out.new }
{
    if n < 10 {
        return put_byte(48 + n as u8, out, at);
    }
    let w = put_decimal(n / 10, out, at);
    put_byte(48 + (n % 10) as u8, out, w)
}
