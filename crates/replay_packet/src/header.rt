// A header's text: its kind, what only that kind has, and what all have.
use cases::line::{Answer, Out};
use coding::Place;
use packet::{Decoded, LongType, PacketDecodeError, ProtectedHeader, SpaceId};
use shared::ConnectionId;

pub(crate) fn kind(header: ProtectedHeader) -> &'static [u8] {
    match header {
        ProtectedHeader::Initial { .. } => b" initial",
        ProtectedHeader::Long {
            ty: LongType::ZeroRtt,
            ..
        } => b" 0rtt",
        ProtectedHeader::Long {
            ty: LongType::Handshake,
            ..
        } => b" handshake",
        ProtectedHeader::Retry => b" retry",
        ProtectedHeader::Short { .. } => b" short",
        ProtectedHeader::VersionNegotiate { .. } => b" vneg",
    }
}

// What only a kind has.
fn and_own(header: ProtectedHeader, out: &mut Out) {
    match header {
        ProtectedHeader::Initial { token, len } => {
            out.and_nums(&[token.start as u64, token.len as u64, len]);
        }
        ProtectedHeader::Long { len, .. } => out.and_num(len),
        ProtectedHeader::Retry => {}
        ProtectedHeader::Short { spin } => out.and_num(u64::from(spin)),
        ProtectedHeader::VersionNegotiate { random } => out.and_num(u64::from(random)),
    }
}

fn space_number(id: SpaceId) -> u64 {
    match id {
        SpaceId::Initial => 0,
        SpaceId::Handshake => 1,
        SpaceId::Data => 2,
    }
}

// What the accessors say.
fn and_said(plain: Decoded, out: &mut Out) {
    out.and_some(plain.payload_len());
    out.and_some(plain.space().map(space_number));
    out.and_nums(&[
        u64::from(plain.is_initial()),
        u64::from(plain.is_0rtt()),
        u64::from(plain.has_long_header()),
    ]);
}

fn and_cid(id: ConnectionId, out: &mut Out) {
    let len = usize::from(id.len);
    out.and_part(&id.bytes, Place { start: 0, len });
}

fn read(plain: Decoded, out: &mut Out) {
    let header = plain.header;
    out.say(Ok(Answer::Done));
    out.put(kind(header));
    and_own(header, out);
    out.and_nums(&[plain.number_offset as u64, u64::from(plain.version)]);
    and_said(plain, out);
    and_cid(plain.dst_cid(), out);
    and_cid(plain.src_cid, out);
}

// A refusal; that of a version has the version and both connection ids.
fn refused(why: PacketDecodeError, out: &mut Out) {
    out.say(Err(why.refusal()));
    if let PacketDecodeError::UnsupportedVersion {
        dst_cid,
        src_cid,
        version,
    } = why
    {
        out.and_num(u64::from(version));
        and_cid(dst_cid, out);
        and_cid(src_cid, out);
    }
}

// A header that was read, or its refusal.
pub(crate) fn put(header: Result<Decoded, PacketDecodeError>, out: &mut Out) {
    match header {
        Ok(plain) => read(plain, out),
        Err(why) => refused(why, out),
    }
}
