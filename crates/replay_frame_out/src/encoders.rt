// The encoders, each into the record's last part as a lent buffer.
ghost use Rattle.std.specs.Prelude.{◌≤◌, length};

use cases::line::{Answer, Out, written};
use cases::record;
use cases::record::Numbers;
use coding::{Reader, Refusal, put_slice};
use ecn::EcnCounts;
use frame::{AckFrequency, ResetStream, StopSending};
use frame_out::{CloseKind, StreamMeta};
use shared::{ConnectionId, FrameType, StreamId};

// The place of the lent buffer among a record's parts.
fn lent_part(kind: u64) -> u8 {
    match kind {
        2 | 3 | 6 | 9 => 1,
        5 | 8 | 10 => 2,
        _ => 0,
    }
}

pub(crate) fn fenc(rec: &[u8], work: &mut [u8], out: &mut Out) {
    let ns = record::numbers_of(rec);
    let n = record::lay(work, record::bytes(rec, lent_part(ns.n0)));
    let said = encode(ns, rec, &mut work[..n]);
    out.wrote(said, &work[..n]);
}

fn encode(ns: Numbers, rec: &[u8], buf: &mut [u8]) -> Result<Answer, Refusal> {
    if 14 < ns.n0 {
        return Ok(Answer::Bad);
    }
    written(run(ns, rec, buf))
}

// The kinds, by their numbers in the oracle's table: those of numbers alone, and those with parts.
fn run(ns: Numbers, rec: &[u8], buf: &mut [u8]) -> Result<usize, Refusal> {
    match ns.n0 {
        0 => reset(ns, buf),
        1 => stop(ns, buf),
        4 => stream(ns, buf),
        7 => ack_frequency(ns, buf),
        11 => frame_out::ecn_counts(counts(ns), buf),
        12 => frame_out::encode(FrameType(ns.n1), buf),
        13 => frame_out::encode(StreamId(ns.n1), buf),
        14 => frame_out::encode(ns.n1, buf),
        _ => run_parts(ns, record::bytes(rec, 0), record::bytes(rec, 1), buf),
    }
}

fn run_parts(ns: Numbers, first: &[u8], second: &[u8], buf: &mut [u8]) -> Result<usize, Refusal> {
    match ns.n0 {
        2 => frame_out::crypto(ns.n1, first, buf),
        3 => frame_out::new_token(first, buf),
        5 => new_cid(ns, first, second, buf),
        6 => frame_out::datagram(ns.n1 == 1, first, buf),
        8 => close(ns, first, second, buf),
        9 => application_close(ns, first, buf),
        _ => ack(ns.n1, first, second, buf),
    }
}

fn reset(ns: Numbers, buf: &mut [u8]) -> Result<usize, Refusal> {
    let frame = ResetStream {
        id: StreamId(ns.n1),
        error_code: ns.n2,
        final_offset: ns.n3,
    };
    frame_out::reset_stream(frame, buf)
}

fn stop(ns: Numbers, buf: &mut [u8]) -> Result<usize, Refusal> {
    let frame = StopSending {
        id: StreamId(ns.n1),
        error_code: ns.n2,
    };
    frame_out::stop_sending(frame, buf)
}

fn stream(ns: Numbers, buf: &mut [u8]) -> Result<usize, Refusal> {
    let meta = StreamMeta {
        id: StreamId(ns.n1),
        start: ns.n2,
        end: ns.n3,
        fin: ns.n4 == 1,
    };
    frame_out::stream_meta(meta, ns.n5 == 1, buf)
}

// A connection id of any length that a byte holds; past 20 bytes it breaks the rule, and its bytes are not looked at.
fn cid_of(b: &[u8]) -> ConnectionId {
    match ConnectionId::new(b) {
        Ok(id) => id,
        Err(_) => ConnectionId {
            len: 255,
            bytes: [0; 20],
        },
    }
}

fn new_cid(ns: Numbers, id: &[u8], reset: &[u8], buf: &mut [u8]) -> Result<usize, Refusal> {
    let mut token = [0; 16];
    put_slice(&mut token, 0, reset);
    frame_out::new_connection_id(ns.n1, ns.n2, cid_of(id), &token, buf)
}

fn ack_frequency(ns: Numbers, buf: &mut [u8]) -> Result<usize, Refusal> {
    let frame = AckFrequency {
        sequence: ns.n1,
        ack_eliciting_threshold: ns.n2,
        request_max_ack_delay: ns.n3,
        reordering_threshold: ns.n4,
    };
    frame_out::ack_frequency(frame, buf)
}

// The one number of a part, or none.
fn type_of(bytes: &[u8]) -> Option<FrameType> {
    let x = Reader { bytes, at: 0 }.get::<u64>().ok()?;
    Some(FrameType(x))
}

// By itself, or (1) through `close`.
fn close(ns: Numbers, ty: &[u8], reason: &[u8], buf: &mut [u8]) -> Result<usize, Refusal> {
    let error_code = ns.n2;
    let max_len = ns.n3 as usize;
    let frame_type = type_of(ty);
    if ns.n1 == 1 {
        let kind = CloseKind::Connection {
            error_code,
            frame_type,
        };
        return frame_out::close(kind, reason, max_len, buf);
    }
    frame_out::connection_close(error_code, frame_type, reason, max_len, buf)
}

fn application_close(ns: Numbers, reason: &[u8], buf: &mut [u8]) -> Result<usize, Refusal> {
    let error_code = ns.n2;
    let max_len = ns.n3 as usize;
    if ns.n1 == 1 {
        return frame_out::close(CloseKind::Application { error_code }, reason, max_len, buf);
    }
    frame_out::application_close(error_code, reason, max_len, buf)
}

fn counts(ns: Numbers) -> EcnCounts {
    EcnCounts {
        ect0: ns.n1,
        ect1: ns.n2,
        ce: ns.n3,
    }
}

// The numbers of a part, as many as the list has room for, and how many they are.
fn numbers(bytes: &[u8], list: &mut [u64]) -> usize
    ensures { result ≤ length list.new }
{
    let mut r = Reader { bytes, at: 0 };
    for (i, x) in list.iter_mut().enumerate() {
        let Ok(n) = r.get::<u64>() else {
            return i;
        };
        *x = n;
    }
    list.len()
}

// Three counts, or none.
fn ecn_of(b: &[u8]) -> Option<EcnCounts> {
    let mut list = [0; 3];
    if numbers(b, &mut list) < 3 {
        return None;
    }
    let [ect0, ect1, ce] = list;
    Some(EcnCounts { ect0, ect1, ce })
}

fn ack(delay: u64, counts: &[u8], pairs: &[u8], buf: &mut [u8]) -> Result<usize, Refusal> {
    let mut list = [0; 16_384];
    let n = numbers(pairs, &mut list);
    ack_out::ack(delay, &list[..n], ecn_of(counts), buf)
}
