// The header as far as it can be read without keys (packet.rs, ProtectedHeader::decode; RFC 9000, 17.2 and 17.3).
#![tactic(auto, unfolding(coding::specs::Words::and_then, coding::specs::Said::found_by, crate::specs::Header::outside, crate::specs::Header::unfixed, crate::specs::Header::initial_at, crate::specs::Header::length_at, crate::specs::Header::tail_at, crate::specs::Header::long_at, crate::specs::Header::short_at, crate::specs::Header::headed, crate::specs::Header::first_at, crate::specs::Header::header_by, crate::specs::Said::tail_of, crate::specs::Said::decoded_of, crate::specs::Said::outcome_of))]

ghost use Rattle.std.specs.Prelude.{◌≡◌, ℕ, ◌/◌, ◌%◌};
ghost use Rattle.shared.specs.FirstByte.{spin_bit};
ghost use Rattle.packet.specs.TypeBits.{type_of};
ghost use Rattle.packet.specs.Header.{Header, Outcome, outside, unfixed, listed, initial_at, tail_at, long_at, short_at, header_at};
ghost use Rattle.shared.specs.Cid.{cid_on};
ghost use Rattle.packet.specs.Said.{long_type_of, unlisted, unsupported_by, tail_of, error_of, outcome_of};

use crate::{Decoded, LongHeaderType, PacketDecodeError, ProtectedHeader};
use coding::{MAX_DATAGRAM, Place, Reader, Refusal};
use shared::{ConnectionId, FIXED_BIT, LONG_HEADER_FORM, MAX_CID_SIZE, SPIN_BIT};

// The most versions that a reader may list.
pub const MAX_VERSIONS: usize = 16;

// Whether an argument is outside its rule.
pub(crate) fn is_outside(s: &[u8], local: usize, versions: &[u32]) -> bool
    ensures { result ≡ outside s.now local versions.now }
{
    MAX_DATAGRAM < s.len() || MAX_CID_SIZE < local || MAX_VERSIONS < versions.len()
}

// Whether the fixed bit is clear, and grease is off.
fn is_unfixed(first: u8, grease: bool) -> bool
    ensures { result ≡ unfixed first grease }
{
    !grease && first / FIXED_BIT % 2 == 0
}

// What stands past a long header's connection ids is its header and the place past it; no more than a refusal, as an error has
// room for two connection ids, which would go through memory. Here: an Initial's token behind its length, and its Length.
fn initial_tail(r: &mut Reader) -> Result<ProtectedHeader, Refusal>
    ensures { (made : Header → ℕ → Outcome) → tail_of made result r.new.at ≡ initial_at made r.old.bytes.now r.old.at }
{
    let Ok(token_len) = r.get_var() else {
        return Err(Refusal::PacketEnd);
    };
    let Ok(token) = r.take(token_len.0) else {
        return Err(Refusal::Token);
    };
    let Ok(len) = r.get_var() else {
        return Err(Refusal::PacketEnd);
    };
    Ok(ProtectedHeader::Initial { token, len: len.0 })
}

// By the type.
fn long_tail(r: &mut Reader, ty: LongHeaderType) -> Result<ProtectedHeader, Refusal>
    ensures { (made : Header → ℕ → Outcome) → tail_of made result r.new.at ≡ tail_at (long_type_of ty) made r.old.bytes.now r.old.at }
{
    match ty {
        LongHeaderType::Initial => initial_tail(r),
        LongHeaderType::Retry => Ok(ProtectedHeader::Retry),
        LongHeaderType::Standard(ty) => {
            let Ok(len) = r.get_var() else {
                return Err(Refusal::PacketEnd);
            };
            Ok(ProtectedHeader::Long { ty, len: len.0 })
        }
    }
}

fn is_listed(versions: &[u32], version: u32) -> bool
    ensures { result ≡ listed versions.now version }
{
    versions.contains(&version)
}

// Whether a version can't be read: it is not 0, which is looked at first, and not listed.
fn is_unlisted(versions: &[u32], version: u32) -> bool
    ensures { result ≡ unlisted versions.now version }
{
    version != 0 && !is_listed(versions, version)
}

// The error that carries both connection ids. Not inlined: where a header that was read shares its room, reading takes as long again.
#[cold]
#[inline(never)]
fn unsupported(s: &[u8], to: Place, from: Place, version: u32) -> PacketDecodeError
    ensures { error_of result ≡ unsupported_by (cid_on s.now to) (cid_on s.now from) version }
{
    PacketDecodeError::UnsupportedVersion {
        dst_cid: ConnectionId::at(s, to),
        src_cid: ConnectionId::at(s, from),
        version,
    }
}

// The version, the two connection ids, and what stands past them. The connection ids are made just before the answer.
fn long_header(s: &[u8], first: u8, versions: &[u32]) -> Result<Decoded, PacketDecodeError>
    ensures { outcome_of result ≡ long_at type_of (first / 16) (first % 16) s.now versions.now }
{
    let mut r = Reader { bytes: s, at: 1 };
    let version = r.get::<u32>()?;
    let Ok(to) = shared::long_place(&mut r) else {
        return Err(PacketDecodeError::Refused(Refusal::Cid)); // for a cut length byte too
    };
    let Ok(from) = shared::long_place(&mut r) else {
        return Err(PacketDecodeError::Refused(Refusal::Cid));
    };
    if is_unlisted(versions, version) {
        return Err(unsupported(s, to, from, version));
    }
    let header = if version == 0 {
        let random = first % LONG_HEADER_FORM;
        ProtectedHeader::VersionNegotiate { random }
    } else {
        match long_tail(&mut r, LongHeaderType::from_byte(first, version)) {
            Ok(header) => header,
            Err(why) => return Err(PacketDecodeError::Refused(why)),
        }
    };
    Ok(Decoded {
        header,
        version,
        number_offset: r.at,
        dst_cid: ConnectionId::at(s, to),
        src_cid: ConnectionId::at(s, from),
    })
}

fn short_header(s: &[u8], first: u8, local: usize) -> Result<Decoded, PacketDecodeError>
    ensures { outcome_of result ≡ short_at (first / spin_bit) s.now local }
{
    let mut r = Reader { bytes: s, at: 1 };
    let Ok(to) = r.take(local as u64) else {
        return Err(PacketDecodeError::Refused(Refusal::ShortCid));
    };
    Ok(Decoded {
        header: ProtectedHeader::Short {
            spin: first / SPIN_BIT % 2 == 1,
        },
        version: 0,
        number_offset: r.at,
        dst_cid: ConnectionId::at(s, to),
        src_cid: ConnectionId::empty(),
    })
}

// Decode a plain header, with the length of the connection ids that we hand out, and the versions that we speak. The
// parameters are those of the Rust, and of the C surface.
pub fn decode(
    s: &[u8],
    local: usize,
    versions: &[u32],
    grease: bool,
) -> Result<Decoded, PacketDecodeError>
    ensures { outcome_of result ≡ header_at s.now local versions.now grease }
{
    if is_outside(s, local, versions) {
        return Err(PacketDecodeError::Refused(Refusal::Argument));
    }
    let first = Reader { bytes: s, at: 0 }.get::<u8>()?;
    if is_unfixed(first, grease) {
        return Err(PacketDecodeError::Refused(Refusal::FixedBit));
    }
    if first < LONG_HEADER_FORM {
        return short_header(s, first, local);
    }
    long_header(s, first, versions)
}
