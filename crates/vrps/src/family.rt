// Families of prefixes (02, Q-1).
ghost use Rattle.std.specs.Prelude.{◌≡◌, ◌%◌, ◌≤◌};

// A family, by the width of its prefixes in bits: that of one to four whole words of 32.
#[derive(Clone, Copy)]
pub struct Family {
    pub bits: usize,
    pub ghost even: { bits % 32 ≡ 0 },
    pub ghost least: { 32 ≤ bits },
    pub ghost most: { bits ≤ 128 },
}
