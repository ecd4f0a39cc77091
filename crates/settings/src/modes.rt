// Modes (01, "Modes"; source 002), as numbers like roles (decision 116). No test names mode 1, simple tagging: every mode tags, and 2 and 3 do more.
ghost use Rattle.std.specs.Prelude.{◌≡◌};
ghost use Rattle.rules.specs.Settings.{mode_meant};

pub const DROP_INVALID: u8 = 2;

pub const PRIORITISE: u8 = 3;

// What mode 0 stands for (02, Q-9).
pub const HOUSE_DEFAULT: u8 = DROP_INVALID;

// The mode that is meant: 0 stands for the house default.
pub fn mode_meant(mode: u8) -> u8
    ensures { result ≡ mode_meant mode }
{
    if mode == 0 { HOUSE_DEFAULT } else { mode }
}
