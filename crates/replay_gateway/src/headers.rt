// header_write and mask.
use cases::line::Out;
use cases::record;
use gateway::{HeaderAnswer, HeaderGiven};

// The packet number is the numbers of the record's first part.
fn header_in(rec: &[u8]) -> HeaderGiven {
    let ns = record::numbers_of(rec);
    let number = record::numbers_of(record::bytes(rec, 0));
    HeaderGiven {
        kind: record::byte(ns.n0),
        spin: record::byte(ns.n1),
        key_phase: record::byte(ns.n2),
        random: record::byte(ns.n3),
        version: record::word(ns.n4),
        number_value: record::word(number.n0),
        number_len: number.n1 as usize,
    }
}

fn put_header(a: HeaderAnswer, out: &mut Out) {
    out.nums(
        u64::from(a.refusal),
        &[
            u64::from(a.has_length),
            a.header_len as u64,
            a.number_len as u64,
        ],
    );
}

// The lent buffer, the record's last part, is laid into work.
pub(crate) fn write(rec: &[u8], work: &mut [u8], out: &mut Out) {
    let n = record::lay(work, record::bytes(rec, 4));
    let a = gateway::guobbarel_header_write(
        header_in(rec),
        record::bytes(rec, 1),
        record::bytes(rec, 2),
        record::bytes(rec, 3),
        record::numbers_of(rec).n5 as usize,
        &mut work[..n],
    );
    put_header(a, out);
    out.and_hex(&work[..n]);
}

pub(crate) fn mask(rec: &[u8], work: &mut [u8], out: &mut Out) {
    let ns = record::numbers_of(rec);
    let n = record::lay(work, record::bytes(rec, 1));
    let refusal = gateway::guobbarel_mask(
        ns.n0 as usize,
        ns.n1 as usize,
        record::byte(ns.n2),
        &mut work[..n],
        record::bytes(rec, 0),
    );
    out.num(u64::from(refusal));
    out.and_hex(&work[..n]);
}
