// What a call may say no with (document 01). What 4 and 10 to 12 carry besides their number stands beside them. 9 is the
// number of none (document 02, request 09).
ghost use Rattle.std.specs.Prelude.{◌≡◌};
ghost use Rattle.coding.specs.Refusals.{number_of};
ghost use Rattle.coding.specs.declared.refusal.Refusal.TheVariants as refusal;

#[derive(Clone, Copy, PartialEq, Eq)]
pub enum Refusal {
    // 1: a first byte, version, token length or Length is cut
    PacketEnd,
    // 2: 0x40 is clear in the first byte, and grease is off
    FixedBit,
    // 3: a long header's CID is longer than 20 bytes, or it or its length byte is cut
    Cid,
    // 4: the version is neither 0 nor listed
    Version,
    // 5: an Initial's token is longer than what remains
    Token,
    // 6: fewer bytes follow a short header's first byte than the local CID has
    ShortCid,
    // 7: the Length exceeds what remains
    Length,
    // 8: the packet is shorter than its number offset + 4 + 16
    Sample,
    // 10: a frame's field is cut
    UnexpectedEnd,
    // 11: no frame has this type
    InvalidFrameId,
    // 12: a frame's fields do not go together
    Malformed,
    // 13: a payload of no bytes
    NoFrames,
    // 14: an argument is outside its stated rule
    Argument,
    // 15: the lent output is too small
    Room,
    // 16: the number is 2^31 or more above the largest acknowledged
    TooFar,
}

impl Refusal {
    // Document 01's number.
    pub fn number(self) -> u8
        ensures { result ≡ number_of self }
    {
        match self {
            Refusal::PacketEnd => 1,
            Refusal::FixedBit => 2,
            Refusal::Cid => 3,
            Refusal::Version => 4,
            Refusal::Token => 5,
            Refusal::ShortCid => 6,
            Refusal::Length => 7,
            Refusal::Sample => 8,
            Refusal::UnexpectedEnd => 10,
            Refusal::InvalidFrameId => 11,
            Refusal::Malformed => 12,
            Refusal::NoFrames => 13,
            Refusal::Argument => 14,
            Refusal::Room => 15,
            Refusal::TooFar => 16,
        }
    }
}

// The input ends before a field does.
#[derive(Clone, Copy, PartialEq, Eq)]
pub struct UnexpectedEnd;

// By itself it is 10.
impl From<UnexpectedEnd> for Refusal {
    ghost from_gives = { λ _ r. r ≡ refusal.UnexpectedEnd };

    fn from(_end: UnexpectedEnd) -> Refusal {
        Refusal::UnexpectedEnd
    }
}
