// The sizes of the desk's tables. The contracts name the same in specs/Sizes.antt: a constant of the language is not seen there.
use rules::VRPS_MAX;
use vrps::prefixes::{AFTER_PREFIX, IPV4, IPV6};

// The bytes of the longest table of IPv4 VRPs.
pub const TABLE_MAX: usize = VRPS_MAX * (IPV4 / 8 + AFTER_PREFIX);

// The bytes of the memory for both tables, that of IPv4 and then the parts of that of IPv6.
pub const TABLES_MAX: usize = TABLE_MAX + VRPS_MAX * (IPV6 / 8 + AFTER_PREFIX);
