// The bits of a header's first byte (packet.rs; RFC 9000, 17.2 and 17.3.1).
pub const LONG_HEADER_FORM: u8 = 0x80;

pub const FIXED_BIT: u8 = 0x40;

pub const SPIN_BIT: u8 = 0x20;

pub const SHORT_RESERVED_BITS: u8 = 0x18;

pub const LONG_RESERVED_BITS: u8 = 0x0c;

pub const KEY_PHASE_BIT: u8 = 0x04;
