// The header that is to be written, without its connection ids and its token (packet.rs, Header; RFC 9000, 17).
#![tactic(auto, using(crate::proofs::Laws::tagged, crate::proofs::Laws::untagged, crate::proofs::Standard::long_number, crate::proofs::Standard::long_shape_law), unfolding(coding::specs::Said::answer_of, crate::specs::Before::length_fits, crate::specs::Before::field_for))]

ghost use Rattle.std.specs.Prelude.{◌≡◌, ◌+◌, ◌≤◌};
ghost use Rattle.packet.specs.TypeBits.{bits_of};
ghost use Rattle.packet.specs.Said.{option_of, long_type_of};
ghost use Rattle.packet_out.specs.Encoding.{long_first, short_first, plain_number, shape_by};
ghost use Rattle.packet_out.specs.Said.{plain_of, Formed, FieldFor};

use crate::form;
use crate::form::Form;
use coding::Refusal;
use packet::{LongHeaderType, LongType};
use shared::{CutNumber, FIXED_BIT, KEY_PHASE_BIT, LONG_HEADER_FORM, SPIN_BIT};

#[derive(Clone, Copy, PartialEq, Eq)]
pub enum Header {
    Initial {
        number: CutNumber,
        version: u32,
    },
    Long {
        ty: LongType,
        number: CutNumber,
        version: u32,
    },
    Retry {
        version: u32,
    },
    Short {
        spin: bool,
        key_phase: bool,
        number: CutNumber,
    },
    VersionNegotiate {
        random: u8,
    },
}

// A long header's first byte, its four low bits clear.
fn long_first(ty: LongHeaderType, version: u32) -> u8
    ensures { (result ≡ long_first (bits_of version (long_type_of ty))) × (result ≤ 0xf0) }
{
    LONG_HEADER_FORM + FIXED_BIT + ty.bits(version) * 16
}

// A short header's first byte, its two low bits clear.
fn short_first(spin: bool, key_phase: bool) -> u8
    ensures { (result ≡ short_first spin key_phase) × (result ≤ 0x64) }
{
    FIXED_BIT + u8::from(spin) * SPIN_BIT + u8::from(key_phase) * KEY_PHASE_BIT
}

impl Header {
    pub fn number(self) -> Option<CutNumber>
        ensures { option_of result ≡ plain_number (plain_of self) }
    {
        match self {
            Header::Initial { number, .. }
            | Header::Long { number, .. }
            | Header::Short { number, .. } => Some(number),
            Header::Retry { .. } | Header::VersionNegotiate { .. } => None,
        }
    }

    // Whether it has a Length.
    fn has_length(self) -> bool
        ensures { result ≡ (shape_by bits_of (plain_of self)).has_length }
    {
        matches!(self, Header::Initial { .. } | Header::Long { .. })
    }

    // The Length's two bytes as a number, 01 on top, where a payload of n bytes follows; 14 where they do not hold it. A header
    // that has none does not look at them.
    pub(crate) fn length_field(self, n: usize) -> Result<u16, Refusal>
        ensures { FieldFor (plain_of self) n result }
    {
        if !self.has_length() {
            return Ok(0);
        }
        let k = form::number_size(self.number());
        if 0x4000 <= n || 0x4000 - n <= k {
            return Err(Refusal::Argument);
        }
        Ok((0x4000 + k + n) as u16)
    }

    // What stands around the connection ids; 14 where the number breaks its rule.
    pub(crate) fn form(self) -> Result<Form, Refusal>
        ensures { Formed (plain_of self) result }
    {
        match self {
            Header::Initial { number, version } => Ok(Form {
                first: long_first(LongHeaderType::Initial, version) + number::tag(number)?,
                version: Some(version),
                has_token: true,
                has_length: true,
                number: Some(number),
            }),
            Header::Long {
                ty,
                number,
                version,
            } => Ok(Form {
                first: long_first(LongHeaderType::Standard(ty), version) + number::tag(number)?,
                version: Some(version),
                has_token: false,
                has_length: true,
                number: Some(number),
            }),
            Header::Retry { version } => Ok(Form {
                first: long_first(LongHeaderType::Retry, version),
                version: Some(version),
                has_token: false,
                has_length: false,
                number: None,
            }),
            Header::Short {
                spin,
                key_phase,
                number,
            } => Ok(Form {
                first: short_first(spin, key_phase) + number::tag(number)?,
                version: None,
                has_token: false,
                has_length: false,
                number: Some(number),
            }),
            Header::VersionNegotiate { random } => Ok(Form {
                first: LONG_HEADER_FORM + random % LONG_HEADER_FORM,
                version: Some(0),
                has_token: false,
                has_length: false,
                number: None,
            }),
        }
    }
}
