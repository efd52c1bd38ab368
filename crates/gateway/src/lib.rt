// The surface that the gateway's host calls: seven functions on numbers and byte slices, each over a proved crate. Every
// argument is checked; an answer is a record by value, its refusal first; a refusal changes no lent byte. `gateway_c` exports
// them to C; include/guobbarel.h says the same to a C compiler, and what a caller owes. Parameters, kinds, steps, flags and
// refusals are C's numbers here, and so in what these functions hand them to.
#![tactic(auto, using(crate::proofs::Taken::taken, crate::proofs::Answered::changes, crate::proofs::HeaderWrites::puts_said), unfolding(coding::specs::Said::answer_of))]

mod arguments; // arguments.rt: C's numbers, and what they are taken for
mod headers; // headers.rt: a header with its Length
mod numbers; // numbers.rt: the number ends, in and out
mod packets; // packets.rt: what a header and what finish say, as records
mod records; // records.rt: what goes over the surface by value

ghost use Rattle.std.specs.Prelude.{◌≡◌};
ghost use Rattle.gateway_frame.specs.Frames.{frame_for};
ghost use Rattle.gateway.specs.Packets.{split_for, sample_for, UnmasksPacket, MasksPacket};
ghost use Rattle.gateway.specs.Numbers.{number_for};
ghost use Rattle.gateway.specs.Headers.{WritesHeader};

pub use gateway_frame::{FrameAnswer, FrameValue, Span};
use packets::Extent;
pub use records::{
    HeaderAnswer, HeaderGiven, NumberAnswer, NumberEnds, NumberSpaces, SampleAnswer, SplitAnswer,
    UnmaskAnswer,
};
use shared::{CutNumber, FullNumber};

// The packet at a place of a datagram; the next step is at its end. `local_cid_len` is the length of the CIDs that we hand out,
// `versions` what we speak.
pub fn guobbarel_split(
    datagram: &[u8],
    at: usize,
    local_cid_len: usize,
    versions: &[u32],
    grease: u8,
) -> SplitAnswer
    ensures { result ≡ split_for datagram.now at local_cid_len versions.now grease }
{
    match arguments::flag_of(grease) {
        Ok(grease) => packets::step_record(
            at,
            &packet::step(datagram, at, local_cid_len, versions, grease),
        ),
        Err(why) => packets::no_packet(Some(why), at),
    }
}

// The sample that the mask of a packet is made of.
pub fn guobbarel_sample_place(kind: u8, packet: &[u8], number_offset: usize) -> SampleAnswer
    ensures { result ≡ sample_for kind packet.now number_offset }
{
    SampleAnswer::from(packets::sample_place(kind, packet, number_offset))
}

// Takes the header protection off a packet where it stands.
pub fn guobbarel_unmask(
    kind: u8,
    packet: &mut [u8],
    number_offset: usize,
    mask: &[u8],
) -> UnmaskAnswer
    ensures { UnmasksPacket kind packet.old number_offset mask.now result packet.new }
{
    let extent = Extent {
        len: packet.len(),
        number_offset,
    };
    extent.record(packets::unmask(kind, packet, number_offset, mask))
}

// The frame at a place of a payload; the next step is at `next`.
pub fn guobbarel_frame_read(payload: &[u8], at: usize) -> FrameAnswer
    ensures { result ≡ frame_for payload.now at }
{
    // PADDING comes in runs: it is answered at once, straight into the caller's memory
    if gateway_frame::is_padding(payload, at) {
        return gateway_frame::padding(at, at + 1);
    }
    gateway_frame::read(payload, at)
}

// A step of the number ends, in the space of a packet's kind: 0 send, 1 acknowledge, 2 read, 3 accept.
pub fn guobbarel_number_step(
    step: u8,
    kind: u8,
    spaces: NumberSpaces,
    number: u64,
    number_len: usize,
    number_value: u32,
) -> NumberAnswer
    ensures { result ≡ number_for step kind spaces number number_len number_value }
{
    let cut = CutNumber(number_len, number_value);
    match numbers::step(step, kind, spaces, FullNumber(number), cut) {
        Ok(answer) => answer,
        Err(why) => numbers::no_number(Some(why), spaces),
    }
}

// Writes a header from byte 0 of out on, for a payload of `payload_len` bytes to follow it.
pub fn guobbarel_header_write(
    header: HeaderGiven,
    dst_cid: &[u8],
    src_cid: &[u8],
    token: &[u8],
    payload_len: usize,
    out: &mut [u8],
) -> HeaderAnswer
    ensures { WritesHeader header dst_cid.now src_cid.now token.now payload_len out.old result out.new }
{
    HeaderAnswer::from(headers::write(header, dst_cid, src_cid, token, payload_len, out))
}

// The mask step: header protection over a packet that is encrypted. A number_len of 0 says that there is no number. Answers the
// refusal.
pub fn guobbarel_mask(
    header_len: usize,
    number_len: usize,
    has_length: u8,
    packet: &mut [u8],
    mask: &[u8],
) -> u8
    ensures { MasksPacket header_len number_len has_length packet.old mask.now result packet.new }
{
    match packets::mask(header_len, number_len, has_length, packet, mask) {
        Ok(()) => 0,
        Err(why) => why.number(),
    }
}
