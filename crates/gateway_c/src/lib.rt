// The C surface: the seven functions of `gateway`, each under the same contract, with the symbols that include/guobbarel.h declares.
// A static library of its own, since a crate is a library or an archive and not both.
#![tactic(auto)]

ghost use Rattle.std.specs.Prelude.{◌≡◌};
ghost use Rattle.gateway_frame.specs.Frames.{frame_for};
ghost use Rattle.gateway.specs.Packets.{split_for, sample_for, UnmasksPacket, MasksPacket};
ghost use Rattle.gateway.specs.Numbers.{number_for};
ghost use Rattle.gateway.specs.Headers.{WritesHeader};

use gateway::{
    FrameAnswer, HeaderAnswer, HeaderGiven, NumberAnswer, NumberSpaces, SampleAnswer, SplitAnswer,
    UnmaskAnswer,
};

// The packet at a place of a datagram; the next step is at its end. `local_cid_len` is the length of the CIDs that we hand out,
// `versions` what we speak.
#[unsafe(no_mangle)]
pub extern "C" fn guobbarel_split(
    datagram: &[u8],
    at: usize,
    local_cid_len: usize,
    versions: &[u32],
    grease: u8,
) -> SplitAnswer
    ensures { result ≡ split_for datagram.now at local_cid_len versions.now grease }
{
    gateway::guobbarel_split(datagram, at, local_cid_len, versions, grease)
}

// The sample that the mask of a packet is made of.
#[unsafe(no_mangle)]
pub extern "C" fn guobbarel_sample_place(
    kind: u8,
    packet: &[u8],
    number_offset: usize,
) -> SampleAnswer
    ensures { result ≡ sample_for kind packet.now number_offset }
{
    gateway::guobbarel_sample_place(kind, packet, number_offset)
}

// Takes the header protection off a packet where it stands.
#[unsafe(no_mangle)]
pub extern "C" fn guobbarel_unmask(
    kind: u8,
    packet: &mut [u8],
    number_offset: usize,
    mask: &[u8],
) -> UnmaskAnswer
    ensures { UnmasksPacket kind packet.old number_offset mask.now result packet.new }
{
    gateway::guobbarel_unmask(kind, packet, number_offset, mask)
}

// The frame at a place of a payload; the next step is at `next`.
#[unsafe(no_mangle)]
pub extern "C" fn guobbarel_frame_read(payload: &[u8], at: usize) -> FrameAnswer
    ensures { result ≡ frame_for payload.now at }
{
    gateway::guobbarel_frame_read(payload, at)
}

// A step of the number ends, in the space of a packet's kind: 0 send, 1 acknowledge, 2 read, 3 accept.
#[unsafe(no_mangle)]
pub extern "C" fn guobbarel_number_step(
    step: u8,
    kind: u8,
    spaces: NumberSpaces,
    number: u64,
    number_len: usize,
    number_value: u32,
) -> NumberAnswer
    ensures { result ≡ number_for step kind spaces number number_len number_value }
{
    gateway::guobbarel_number_step(step, kind, spaces, number, number_len, number_value)
}

// Writes a header from byte 0 of out on, for a payload of `payload_len` bytes to follow it.
#[unsafe(no_mangle)]
pub extern "C" fn guobbarel_header_write(
    header: HeaderGiven,
    dst_cid: &[u8],
    src_cid: &[u8],
    token: &[u8],
    payload_len: usize,
    out: &mut [u8],
) -> HeaderAnswer
    ensures { WritesHeader header dst_cid.now src_cid.now token.now payload_len out.old result out.new }
{
    gateway::guobbarel_header_write(header, dst_cid, src_cid, token, payload_len, out)
}

// The mask step: header protection over a packet that is encrypted. A number_len of 0 says that there is no number. Answers the
// refusal.
#[unsafe(no_mangle)]
pub extern "C" fn guobbarel_mask(
    header_len: usize,
    number_len: usize,
    has_length: u8,
    packet: &mut [u8],
    mask: &[u8],
) -> u8
    ensures { MasksPacket header_len number_len has_length packet.old mask.now result packet.new }
{
    gateway::guobbarel_mask(header_len, number_len, has_length, packet, mask)
}
