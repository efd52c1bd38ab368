// frame_read.
use crate::and_bytes;
use cases::line::Out;
use cases::record;
use gateway::FrameAnswer;

// The values, each with the bytes at its place.
fn put_frame(a: FrameAnswer, payload: &[u8], out: &mut Out) {
    out.nums(
        u64::from(a.refusal),
        &[
            u64::from(a.found),
            u64::from(a.has_type),
            a.start as u64,
            a.next as u64,
            a.frame_type,
            a.name,
        ],
    );
    for v in [a.value0, a.value1, a.value2, a.value3, a.value4, a.value5] {
        let place = v.place;
        out.and_nums(&[
            u64::from(v.kind),
            v.number,
            place.start as u64,
            place.len as u64,
        ]);
        and_bytes(payload, place, out);
    }
}

pub(crate) fn read(rec: &[u8], out: &mut Out) {
    let at = record::numbers_of(rec).n0 as usize;
    let payload = record::bytes(rec, 0);
    put_frame(gateway::guobbarel_frame_read(payload, at), payload, out);
}
