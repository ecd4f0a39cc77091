// The two families of prefixes; prefixes as words, and their leading bits, 32 at a time (RFC 6811 section 2; 01, "Origin state"; 02, Q-1).
ghost use Rattle.std.specs.Prelude.{◌≡◌, cond, ◌+◌, ◌-◌, ◌*◌, ◌/◌, ◌%◌, ◌^◌, ◌≤◌, ◌<◌, leb, length};
ghost use Rattle.rules.specs.Bytes.{big_endian, part};
ghost use Rattle.rules.specs.Origin.{ipv4, ipv6, spelled, prefix_in, bit_at, agree, vrp_size};
ghost use Rattle.vrps.specs.Widths.{Whole, bits, word_in};

use super::family::Family;
use octets::number4_at;
use rules::Words;

// The width of a prefix in bits, for IPv4 and IPv6: numbers too, for sizes of arrays, which a method can't say.
pub const IPV4: usize = 32;

pub const IPV6: usize = 128;

// The bytes of a record after its prefix: length, maximum length, ASN 4.
pub const AFTER_PREFIX: usize = 6;

impl Family {
    // IPv4: one word.
    pub fn ipv4() -> Family
        ensures { bits result ≡ ipv4 }
    {
        Family { bits: IPV4 }
    }

    // IPv6: four words.
    pub fn ipv6() -> Family
        ensures { bits result ≡ ipv6 }
    {
        Family { bits: IPV6 }
    }

    // The width of its prefixes in octets.
    pub fn octets(self) -> usize
        ensures { (result ≡ bits self / 8) × (8 * result ≡ bits self) × (4 ≤ result) × (result ≤ 16) }
    {
        self.bits / 8
    }

    // The bytes of a record: prefix, length, maximum length, ASN.
    pub fn record_size(self) -> usize
        ensures { (result ≡ vrp_size (bits self)) × (10 ≤ result) × (result ≤ 22) }
    {
        self.octets() + AFTER_PREFIX
    }
}

// The bits of a word, and how many values it has.
const WORD: u8 = 32;

const WORD_VALUES: u64 = 4294967296;

// An IPv4 prefix, as words.
pub fn words4(prefix: u32) -> Words
    ensures { prefix_in ipv4 result ≡ prefix }
{
    Words {
        first: prefix,
        second: 0,
        third: 0,
        fourth: 0,
    }
}

// An IPv6 prefix, by the numbers of its first eight bytes and of its last eight, as words.
pub fn words6(high: u64, low: u64) -> Words
    ensures { prefix_in ipv6 result ≡ high * 2 ^ 64 + low }
{
    Words {
        first: (high / WORD_VALUES) as u32,
        second: (high % WORD_VALUES) as u32,
        third: (low / WORD_VALUES) as u32,
        fourth: (low % WORD_VALUES) as u32,
    }
}

// "A VRP covers a route if its length is not greater and that many leading bits agree; later bits never count" (01; RFC 6811 section 2).
// Whether n leading bits of two words agree. Internal.
pub fn same_leading(a: u32, b: u32, n: u8) -> bool
    requires { n ≤ 32 }
    ensures { result ≡ agree 32 n a b }
{
    let later_bits = WORD - n;
    let power_of_two = 1u64 << later_bits;
    (a as u64) / power_of_two == (b as u64) / power_of_two
}

// Word k of a prefix, counted from the leading one. Internal.
fn word(prefix: Words, k: usize) -> u32
    ensures { result ≡ word_in prefix k }
{
    match k {
        0 => prefix.first,
        1 => prefix.second,
        2 => prefix.third,
        _ => prefix.fourth,
    }
}

// Octet i of a prefix, counted from the leading one. Internal.
pub fn octet(prefix: Words, i: usize) -> u32
    requires { i < 16 }
    ensures { result ≡ spelled prefix / 2 ^ (120 - 8 * i) % 2 ^ 8 }
{
    (word(prefix, i / 4) >> (24 - 8 * (i % 4))) % 256
}

// Bit i of a prefix, counted from the leading one. Internal.
pub fn bit(prefix: Words, i: usize) -> usize
    requires { i < 128 }
    ensures { (result ≡ bit_at 128 (spelled prefix) i) × (result < 2) }
{
    ((octet(prefix, i / 8) >> (7 - i % 8)) % 2) as usize
}

// Whether n leading bits of a prefix in bytes and of one in words agree: first the whole words, then the one that is cut. The bits left are
// counted down: a `for` over the words, whose number is then found first, took half as long again. Internal.
pub fn same_prefix(bytes: &[u8], prefix: Words, n: u8) -> bool
    requires { (Whole (8 * length bytes.now)) × (n ≤ 8 * length bytes.now) }
    ensures { result ≡ agree (8 * length bytes.now) n (big_endian bytes.now) (prefix_in (8 * length bytes.now) prefix) }
{
    let mut k = 0;
    let mut left = n;
    while WORD < left {
        if number4_at(bytes, 4 * k) != word(prefix, k) {
            return false;
        }
        k += 1;
        left -= WORD;
    }
    same_leading(number4_at(bytes, 4 * k), word(prefix, k), left)
}

// Word k of a prefix in bytes, or 0 past its end. Internal.
fn word_or_zero(bytes: &[u8], k: usize) -> u32
    requires { k < 4 }
    ensures { result ≡ cond (leb (4 * k + 4) (length bytes.now)) (big_endian (part (4 * k) 4 bytes.now)) 0 }
{
    if bytes.len() < 4 * k + 4 {
        return 0;
    }
    number4_at(bytes, 4 * k)
}

// A prefix in bytes, as words. Internal.
pub fn words(bytes: &[u8]) -> Words
    requires { Whole (8 * length bytes.now) }
    ensures { prefix_in (8 * length bytes.now) result ≡ big_endian bytes.now }
{
    Words {
        first: word_or_zero(bytes, 0),
        second: word_or_zero(bytes, 1),
        third: word_or_zero(bytes, 2),
        fourth: word_or_zero(bytes, 3),
    }
}
