// What a header says (packet.rs, ProtectedHeader; RFC 9000, 17).
ghost use Rattle.std.specs.Prelude.{◌≡◌, ◌/◌, ◌%◌, ◌≤◌};
ghost use Rattle.coding.specs.Words.{ok};
ghost use Rattle.packet.specs.TypeBits.{type_of, bits_of};
ghost use Rattle.packet.specs.Header.{length_in, space_in, is_kind, is_long};
ghost use Rattle.packet.specs.Said.{long_type_of, header_of, option_of, space_of};

use coding::Place;
use shared::ConnectionId;

// The version of RFC 9369, whose long headers have other type bits.
const VERSION_2: u32 = 0x6b3343cf;

// Long packet types with uniform header structure.
#[derive(Clone, Copy, PartialEq, Eq)]
pub enum LongType {
    Handshake,
    ZeroRtt,
}

// Long packet type including non-uniform cases.
#[derive(Clone, Copy, PartialEq, Eq)]
pub enum LongHeaderType {
    Initial,
    Retry,
    Standard(LongType),
}

// A packet's header without its connection ids.
#[derive(Clone, Copy, PartialEq, Eq)]
pub enum ProtectedHeader {
    Initial { token: Place, len: u64 },
    Long { ty: LongType, len: u64 },
    Retry,
    Short { spin: bool },
    VersionNegotiate { random: u8 },
}

// A header that was read. The number offset is the place past the header: the packet number's, where there is one. The connection
// ids stand last: past all of an error, whose room an answer shares, their bytes cost a caller nothing that does not read them.
#[derive(Clone, Copy, PartialEq, Eq)]
pub struct Decoded {
    pub header: ProtectedHeader,
    pub version: u32,
    pub number_offset: usize,
    pub dst_cid: ConnectionId,
    pub src_cid: ConnectionId,
}

// The packet number spaces.
#[derive(Clone, Copy, PartialEq, Eq)]
pub enum SpaceId {
    Initial,
    Handshake,
    Data,
}

impl LongHeaderType {
    // By the version, and the two type bits of a long header's first byte.
    pub fn from_byte(b: u8, version: u32) -> LongHeaderType
        ensures { long_type_of result ≡ type_of version (b / 16 % 4) }
    {
        match (version == VERSION_2, b / 16 % 4) {
            (false, 0) | (true, 1) => LongHeaderType::Initial,
            (false, 1) | (true, 2) => LongHeaderType::Standard(LongType::ZeroRtt),
            (false, 2) | (true, 3) => LongHeaderType::Standard(LongType::Handshake),
            _ => LongHeaderType::Retry,
        }
    }

    // And back: the two type bits, by the version too, so this is no From.
    pub fn bits(self, version: u32) -> u8
        ensures { (result ≡ bits_of version (long_type_of self)) × (result ≤ 3) }
    {
        match (version == VERSION_2, self) {
            (false, LongHeaderType::Initial) | (true, LongHeaderType::Retry) => 0,
            (false, LongHeaderType::Standard(LongType::ZeroRtt))
            | (true, LongHeaderType::Initial) => 1,
            (false, LongHeaderType::Standard(LongType::Handshake))
            | (true, LongHeaderType::Standard(LongType::ZeroRtt)) => 2,
            (false, LongHeaderType::Retry)
            | (true, LongHeaderType::Standard(LongType::Handshake)) => 3,
        }
    }
}

impl Decoded {
    // The destination Connection ID of the packet.
    pub fn dst_cid(self) -> ConnectionId
        ensures { result ≡ self.dst_cid }
    {
        self.dst_cid
    }

    // The Length of a packet that has one.
    pub fn payload_len(self) -> Option<u64>
        ensures { option_of result ≡ length_in (ok (header_of self.header)) }
    {
        match self.header {
            ProtectedHeader::Initial { len, .. } | ProtectedHeader::Long { len, .. } => Some(len),
            _ => None,
        }
    }

    // The space of a packet that has a number.
    pub fn space(self) -> Option<SpaceId>
        ensures { space_of result ≡ space_in (ok (header_of self.header)) }
    {
        match self.header {
            ProtectedHeader::Initial { .. } => Some(SpaceId::Initial),
            ProtectedHeader::Long {
                ty: LongType::Handshake,
                ..
            } => Some(SpaceId::Handshake),
            ProtectedHeader::Long {
                ty: LongType::ZeroRtt,
                ..
            }
            | ProtectedHeader::Short { .. } => Some(SpaceId::Data),
            _ => None,
        }
    }

    pub fn is_initial(self) -> bool
        ensures { result ≡ is_kind 0 (ok (header_of self.header)) }
    {
        matches!(self.header, ProtectedHeader::Initial { .. })
    }

    pub fn is_0rtt(self) -> bool
        ensures { result ≡ is_kind 1 (ok (header_of self.header)) }
    {
        matches!(
            self.header,
            ProtectedHeader::Long {
                ty: LongType::ZeroRtt,
                ..
            }
        )
    }

    pub fn has_long_header(self) -> bool
        ensures { result ≡ is_long (ok (header_of self.header)) }
    {
        !matches!(self.header, ProtectedHeader::Short { .. })
    }
}
