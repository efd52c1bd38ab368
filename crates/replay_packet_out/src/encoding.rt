// A record's header, and its encoding. The header's numbers and parts stand in the order of the oracle's table of kinds.
ghost use Rattle.std.specs.Prelude.{◌≤◌};

use cases::line::{Answer, Out};
use cases::record;
use cases::record::Numbers;
use coding::{Place, Refusal};
use packet::LongType;
use packet_out::{Header, PartialEncode};
use shared::{ConnectionId, CutNumber};

// Kinds are initial, 0rtt, handshake, retry, short, vneg.
fn header(ns: Numbers) -> Header {
    let version = record::word(ns.n1);
    let number = CutNumber(ns.n2 as usize, record::word(ns.n3));
    match ns.n0 {
        0 => Header::Initial { number, version },
        1 => Header::Long {
            ty: LongType::ZeroRtt,
            number,
            version,
        },
        2 => Header::Long {
            ty: LongType::Handshake,
            number,
            version,
        },
        3 => Header::Retry { version },
        4 => Header::Short {
            spin: ns.n1 == 1,
            key_phase: ns.n2 == 1,
            number: CutNumber(ns.n3 as usize, record::word(ns.n4)),
        },
        _ => Header::VersionNegotiate {
            random: record::byte(ns.n1),
        },
    }
}

// How many parts the header of a kind has: an Initial has a token, a short header one connection id.
pub(crate) fn parts(kind: u64) -> u8
    ensures { result ≤ 3 }
{
    match kind {
        0 => 3,
        4 => 1,
        _ => 2,
    }
}

// The connection id of these bytes. Past 20 of them it is one that no call makes.
fn cid(bytes: &[u8]) -> ConnectionId {
    if let Ok(id) = ConnectionId::new(bytes) {
        return id;
    }
    let len = record::byte(bytes.len() as u64);
    let ConnectionId { bytes, .. } = ConnectionId::at(bytes, Place { start: 0, len: 20 });
    ConnectionId { len, bytes }
}

fn src(kind: u64, rec: &[u8]) -> ConnectionId {
    if parts(kind) < 2 {
        return ConnectionId::empty();
    }
    cid(record::bytes(rec, 1))
}

fn token(kind: u64, rec: &[u8]) -> &[u8] {
    if parts(kind) < 3 {
        return &rec[..0];
    }
    record::bytes(rec, 2)
}

// A record's header into a lent buffer.
pub(crate) fn encode(rec: &[u8], buf: &mut [u8]) -> Result<PartialEncode, Refusal> {
    let ns = record::numbers_of(rec);
    let dst = cid(record::bytes(rec, 0));
    packet_out::encode(header(ns), dst, src(ns.n0, rec), token(ns.n0, rec), buf)
}

// The header's length, its number's, `-` for none, and whether there is a Length.
fn put_encoded(said: Result<PartialEncode, Refusal>, out: &mut Out) {
    match said {
        Ok(partial) => {
            out.say(Ok(Answer::One(partial.header_len as u64)));
            out.and_some(partial.number.map(|k| k as u64));
            out.and_num(u64::from(partial.has_length));
        }
        Err(why) => out.say(Err(why)),
    }
}

// The lent buffer is the record's last part, laid into work.
pub(crate) fn henc(rec: &[u8], work: &mut [u8], out: &mut Out) {
    let kind = record::numbers_of(rec).n0;
    let n = record::lay(work, record::bytes(rec, parts(kind)));
    put_encoded(encode(rec, &mut work[..n]), out);
    out.and_hex(&work[..n]);
}
