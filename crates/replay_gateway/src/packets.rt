// split, sample_place and unmask.
use crate::and_bytes;
use cases::line::Out;
use cases::record;
use gateway::{SampleAnswer, SplitAnswer, UnmaskAnswer};
use gateway_frame::Span;

// What stands from a place on.
fn rest(s: &[u8], at: usize) -> &[u8] {
    s.get(at..).unwrap_or(&[])
}

// All places but the packet's are counted from its first byte.
fn put_split(a: SplitAnswer, s: &[u8], out: &mut Out) {
    let Span { start, len } = a.packet;
    out.nums(
        u64::from(a.refusal),
        &[
            u64::from(a.kind),
            u64::from(a.spin),
            u64::from(a.random),
            u64::from(a.version),
            start as u64,
            len as u64,
            a.number_offset as u64,
            a.length,
        ],
    );
    let parts = [a.token, a.dst_cid, a.src_cid];
    for span in parts {
        out.and_nums(&[span.start as u64, span.len as u64]);
    }
    let from = rest(s, start);
    and_bytes(from, Span { start: 0, len }, out);
    for span in parts {
        and_bytes(from, span, out);
    }
}

// There is room for more versions than the rule allows.
pub(crate) fn split(rec: &[u8], out: &mut Out) {
    let mut list = [0; 32];
    let n = record::words(record::bytes(rec, 0), &mut list);
    let ns = record::numbers_of(rec);
    let s = record::bytes(rec, 1);
    let a = gateway::guobbarel_split(
        s,
        ns.n0 as usize,
        ns.n1 as usize,
        &list[..n],
        record::byte(ns.n2),
    );
    put_split(a, s, out);
}

fn put_sample(a: SampleAnswer, s: &[u8], out: &mut Out) {
    let Span { start, len } = a.sample;
    out.nums(u64::from(a.refusal), &[start as u64, len as u64]);
    and_bytes(s, a.sample, out);
}

pub(crate) fn sample(rec: &[u8], out: &mut Out) {
    let ns = record::numbers_of(rec);
    let s = record::bytes(rec, 0);
    let a = gateway::guobbarel_sample_place(record::byte(ns.n0), s, ns.n1 as usize);
    put_sample(a, s, out);
}

fn put_unmask(a: UnmaskAnswer, packet: &[u8], out: &mut Out) {
    out.nums(
        u64::from(a.refusal),
        &[
            u64::from(a.reserved_clear),
            u64::from(a.key_phase),
            u64::from(a.number_value),
            a.number_len as u64,
        ],
    );
    let parts = [a.header, a.payload];
    for span in parts {
        out.and_nums(&[span.start as u64, span.len as u64]);
    }
    for span in parts {
        and_bytes(packet, span, out);
    }
    out.and_hex(packet);
}

// The packet is laid into work.
pub(crate) fn unmask(rec: &[u8], work: &mut [u8], out: &mut Out) {
    let ns = record::numbers_of(rec);
    let n = record::lay(work, record::bytes(rec, 1));
    let a = gateway::guobbarel_unmask(
        record::byte(ns.n0),
        &mut work[..n],
        ns.n1 as usize,
        record::bytes(rec, 0),
    );
    put_unmask(a, &work[..n], out);
}
