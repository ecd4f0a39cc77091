// Tests put together. Each is a call, so that what follows has one flag and no branches that meet.
ghost use Rattle.std.specs.Prelude.{◌≡◌, ◌&&◌, [], ◌∷◌};
ghost use Rattle.rules.specs.Bytes.{one_of};

// Both tests hold.
pub fn both(x: bool, y: bool) -> bool
    ensures { result ≡ (x && y) }
{
    if x { y } else { false }
}

// The number is one of these two.
pub fn one_of_two(n: u8, a: u8, b: u8) -> bool
    ensures { result ≡ one_of (a ∷ b ∷ []) n }
{
    n == a || n == b
}

// The number is one of these three.
pub fn one_of_three(n: u8, a: u8, b: u8, c: u8) -> bool
    ensures { result ≡ one_of (a ∷ b ∷ c ∷ []) n }
{
    n == a || one_of_two(n, b, c)
}
