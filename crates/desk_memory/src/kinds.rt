// The kinds of frames (01, "The desk program"; 02, Q-1).
ghost use Rattle.std.specs.Prelude.{◌≡◌};
ghost use Rattle.vrps.specs.Widths.{bits};
ghost use Rattle.desk_memory.specs.Kinds.{Begins, width_of};

use vrps::family::Family;

// The two families that the desk has tables for.
#[derive(Clone, Copy, PartialEq, Eq)]
pub enum Ip {
    V4,
    V6,
}

impl Ip {
    // The family by its width.
    pub fn family(self) -> Family
        ensures { bits result ≡ width_of self }
    {
        match self {
            Ip::V4 => Family::ipv4(),
            Ip::V6 => Family::ipv6(),
        }
    }
}

// A receipt and a VRP are of one family of prefixes.
#[derive(Clone, Copy, PartialEq, Eq)]
pub enum Kind {
    Session,
    Receipt(Ip),
    Sending,
    Vrp(Ip),
}

// The first byte of a frame of each kind.
const SESSION: u8 = 1;

const RECEIPT: u8 = 2;

const SENDING: u8 = 3;

const VRP: u8 = 4;

const RECEIPT6: u8 = 18;

const VRP6: u8 = 20;

// The kind of the frames that begin with a byte, if there are any.
pub fn kind_of(byte: u8) -> Option<Kind>
    ensures { Begins byte result }
{
    match byte {
        SESSION => Some(Kind::Session),
        RECEIPT => Some(Kind::Receipt(Ip::V4)),
        SENDING => Some(Kind::Sending),
        VRP => Some(Kind::Vrp(Ip::V4)),
        RECEIPT6 => Some(Kind::Receipt(Ip::V6)),
        VRP6 => Some(Kind::Vrp(Ip::V6)),
        _ => None,
    }
}
