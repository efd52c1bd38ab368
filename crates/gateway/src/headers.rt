// The header that is to be written, of its arguments, and what it was written with.
#![tactic(auto, using(crate::proofs::Taken::taken), unfolding(packet_out::specs::Said::encoded_of))]

ghost use Rattle.std.specs.Prelude.{◌≡◌};
ghost use Rattle.packet_out.specs.Encoding.{EncodesAs};
ghost use Rattle.packet_out.specs.Said.{plain_of, encoded_of};
ghost use Rattle.gateway.specs.Arguments.{Takes};
ghost use Rattle.gateway.specs.Headers.{kind_outside, lengths_outside, plain_for, written_record, header_for};

use crate::arguments;
use crate::records::{HeaderAnswer, HeaderGiven};
use coding::{MAX_DATAGRAM, Refusal};
use packet::LongType;
use packet_out::{Header, PartialEncode};
use protect::Kind;
use shared::{CutNumber, MAX_CID_SIZE};

// The header to write. What its kind does not have is looked at all the same.
impl TryFrom<HeaderGiven> for Header {
    type Error = Refusal;

    ghost try_from_gives = { λ h r. Takes plain_of (plain_for h) (kind_outside h) r };

    fn try_from(h: HeaderGiven) -> Result<Header, Refusal> {
        let kind = arguments::kind_of(h.kind)?;
        let spin = arguments::flag_of(h.spin)?;
        let key_phase = arguments::flag_of(h.key_phase)?;
        let number = CutNumber(h.number_len, h.number_value);
        let version = h.version;
        Ok(match kind {
            Kind::Initial => Header::Initial { number, version },
            Kind::ZeroRtt => Header::Long {
                ty: LongType::ZeroRtt,
                number,
                version,
            },
            Kind::Handshake => Header::Long {
                ty: LongType::Handshake,
                number,
                version,
            },
            Kind::Retry => Header::Retry { version },
            Kind::Short => Header::Short {
                spin,
                key_phase,
                number,
            },
            Kind::VersionNegotiate => Header::VersionNegotiate { random: h.random },
        })
    }
}

// Whether a length is outside its rule: a connection id's, the token's, the payload's.
fn are_outside(dst: usize, src: usize, token: usize, payload: usize) -> bool
    ensures { result ≡ lengths_outside dst src token payload }
{
    MAX_CID_SIZE < dst || MAX_CID_SIZE < src || MAX_DATAGRAM < token || MAX_DATAGRAM < payload
}

// Writes a header with its Length. The lengths are looked at before the header is made, so that its kind is told apart once: the
// other order was measured, and takes a tenth longer.
pub(crate) fn write(
    header: HeaderGiven,
    dst_cid: &[u8],
    src_cid: &[u8],
    token: &[u8],
    payload_len: usize,
    out: &mut [u8],
) -> Result<PartialEncode, Refusal>
    ensures { EncodesAs (plain_for header) (header_for header dst_cid.now src_cid.now token.now payload_len) out.old (encoded_of result) out.new }
{
    if are_outside(dst_cid.len(), src_cid.len(), token.len(), payload_len) {
        return Err(Refusal::Argument);
    }
    let plain = Header::try_from(header)?;
    packet_out::encode_for(plain, dst_cid, src_cid, token, payload_len, out)
}

// What a header was written with.
impl From<Result<PartialEncode, Refusal>> for HeaderAnswer {
    ghost from_gives = { λ header answer. answer ≡ written_record (encoded_of header) };

    fn from(header: Result<PartialEncode, Refusal>) -> HeaderAnswer {
        match header {
            Ok(header) => HeaderAnswer {
                refusal: 0,
                has_length: u8::from(header.has_length),
                header_len: header.header_len,
                number_len: protect::bytes_of(header.number),
            },
            Err(why) => HeaderAnswer {
                refusal: why.number(),
                has_length: 0,
                header_len: 0,
                number_len: 0,
            },
        }
    }
}
