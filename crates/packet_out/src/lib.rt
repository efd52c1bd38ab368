// Packets out: a header into a lent buffer, and its Length (packet.rs, Header::encode and PartialEncode::finish; RFC 9000, 17).
// Encryption follows, and then protect's mask step.
#![tactic(auto)]

mod form; // form.rt: what stands around the connection ids
mod header; // header.rt: the kinds of header
mod lent; // lent.rt: what is lent for a header, and the header over it

ghost use Rattle.std.specs.Prelude.{◌≡◌, true, ◌+◌, ◌≤◌, length};
ghost use Rattle.coding.specs.Words.{max_datagram};
ghost use Rattle.coding.specs.Bytes.{bytes_be};
ghost use Rattle.coding.specs.Said.{answer_of};
ghost use Rattle.coding.specs.Writing.{Put};
ghost use Rattle.shared.specs.Cid.{max_cid, cid_of, long_bytes};
ghost use Rattle.protect.specs.Said.{number_len_of};
ghost use Rattle.packet_out.specs.Encoding.{Encodes, EncodesAs};
ghost use Rattle.packet_out.specs.Length.{PutsLength, SetsLength};
ghost use Rattle.packet_out.specs.Before.{header_before, EncodesFor};
ghost use Rattle.packet_out.specs.Said.{plain_of, encoded_of};

use coding::{MAX_DATAGRAM, Refusal};
pub use header::Header;
use lent::Lent;
use shared::{ConnectionId, MAX_CID_SIZE};

// What a header was written with: its length, its number's, and whether a Length is to be set.
#[derive(Clone, Copy, PartialEq, Eq)]
pub struct PartialEncode {
    pub header_len: usize,
    pub number: Option<usize>,
    pub has_length: bool,
}

// Writes a header over what is lent, with these two bytes for its Length, where a payload of n bytes may follow.
// Every test is made before a byte is written.
fn encode_with(
    header: Header,
    lent: Lent,
    field: u16,
    n: usize,
    buf: &mut [u8],
) -> Result<PartialEncode, Refusal>
    ensures { EncodesAs (plain_of header) (header_before (bytes_be 2 field) (plain_of header) (cid_of lent.entry.dst_cid.now) (cid_of lent.entry.src_cid.now) lent.entry.token.now n) buf.old (encoded_of result) buf.new }
{
    let form = header.form()?;
    let len = lent.size(form)?;
    if MAX_DATAGRAM - len < n {
        return Err(Refusal::Argument);
    }
    if buf.len() < len {
        return Err(Refusal::Room);
    }
    Ok(PartialEncode {
        header_len: lent.put(form, field, buf),
        number: form::number_len(form.number),
        has_length: form.has_length,
    })
}

// Writes a header from byte 0 of buf on. The token is an Initial's.
pub fn encode(
    header: Header,
    dst_cid: ConnectionId,
    src_cid: ConnectionId,
    token: &[u8],
    buf: &mut [u8],
) -> Result<PartialEncode, Refusal>
    ensures { Encodes (plain_of header) dst_cid src_cid token.now buf.old (encoded_of result) buf.new }
{
    let to = usize::from(dst_cid.len);
    let from = usize::from(src_cid.len);
    if MAX_CID_SIZE < to || MAX_CID_SIZE < from {
        return Err(Refusal::Argument);
    }
    let lent = Lent {
        dst_cid: &dst_cid.bytes[..to],
        src_cid: &src_cid.bytes[..from],
        token,
    };
    encode_with(header, lent, 0, 0, buf)
}

// Writes a header over lent connection ids, its Length that of number and payload, for a payload of n bytes to follow.
pub fn encode_for(
    header: Header,
    dst_cid: &[u8],
    src_cid: &[u8],
    token: &[u8],
    n: usize,
    buf: &mut [u8],
) -> Result<PartialEncode, Refusal>
    ensures { EncodesFor (plain_of header) (cid_of dst_cid.now) (cid_of src_cid.now) token.now n buf.old (encoded_of result) buf.new }
{
    let lent = Lent::new(dst_cid, src_cid, token)?;
    let field = header.length_field(n)?;
    encode_with(header, lent, field, n, buf)
}

// Stores the Length before a number of k bytes.
fn length_into(header_len: usize, k: usize, packet: &mut [u8]) -> Result<(), Refusal>
    requires { (k + 3 ≤ header_len) × (header_len ≤ length packet.old) × (length packet.old ≤ max_datagram) }
    ensures { PutsLength header_len k packet.old (answer_of result) packet.new }
{
    let len = packet.len() - header_len + k;
    if 0x4000 <= len {
        return Err(Refusal::Argument);
    }
    coding::put(packet, header_len - k - 2, 0x4000 + len as u16);
    Ok(())
}

// The Length step: number and payload are counted, by what the header was written with. Its three numbers stand apart, as in
// the mask step of protect, below this crate, and as C hands them over.
pub fn set_length(
    header_len: usize,
    number: Option<usize>,
    has_length: bool,
    packet: &mut [u8],
) -> Result<(), Refusal>
    ensures { SetsLength header_len (number_len_of number) has_length packet.old (answer_of result) packet.new }
{
    if !protect::header_tests(header_len, number, has_length, packet.len()) {
        return Err(Refusal::Argument);
    }
    if !has_length {
        return Ok(());
    }
    length_into(header_len, protect::bytes_of(number), packet)
}
