// C functions for bench/ alone: what the gateway's surface does not export. Integers read one after the other, packet numbers cut
// and read back, encoders of each shape and the dump's text, each over a proved crate. An answer's refusal comes first: 0 for none,
// else document 01's number.
#![tactic(auto)]

ghost use Rattle.std.specs.Prelude.{◌≡◌, eqb, map};
ghost use Rattle.std.proofs.Math.Option.{none};
ghost use Rattle.coding.specs.Words.{ok};
ghost use Rattle.coding.specs.Said.{answer_of};
ghost use Rattle.number.specs.Cutting.{cut, cut_made};
ghost use Rattle.number.specs.Expanding.{expanded};
ghost use Rattle.row_out.specs.Writing.{number};
ghost use Rattle.frame_out.specs.Frames.{meta_out, crypto_out, reset_stream_out, new_cid_out};
ghost use Rattle.frame_out.specs.Closes.{connection, close_out};
ghost use Rattle.ack_out.specs.Acks.{ack_out};
ghost use Rattle.dump_text.specs.Dump.{dump_text};
ghost use Rattle.timed.specs.Timed.{gathered, vars_of, cut_said, cuts_of, fulls_of, Tells, write_record, flagged, Writes};

use coding::{Reader, Refusal};
use frame::ResetStream;
use frame_out::StreamMeta;
use shared::{ConnectionId, CutNumber, FrameType, FullNumber, StreamId};

// What came before the end or a refusal: how many, and the exclusive or of all.
#[repr(C)]
#[derive(Clone, Copy)]
pub struct GatheredAnswer {
    pub refusal: u8,
    pub count: usize,
    pub mixed: u64,
}

// The length of what was written, 0 beside a refusal.
#[repr(C)]
#[derive(Clone, Copy)]
pub struct WriteAnswer {
    pub refusal: u8,
    pub len: usize,
}

// Reads integers from byte 0 on until the slice ends; where one is cut, 10. Each has its own length, so the place goes on by that.
#[unsafe(no_mangle)]
pub extern "C" fn guobbarel_timed_read_vars(bytes: &[u8]) -> GatheredAnswer
    ensures { result ≡ gathered (vars_of bytes.now) }
{
    let mut r = Reader { bytes, at: 0 };
    let mut count = 0;
    let mut mixed = 0;
    while r.at < bytes.len() {
        let Ok(v) = r.get_var() else {
            return GatheredAnswer {
                refusal: 10,
                count,
                mixed,
            };
        };
        mixed ^= v.0;
        count += 1;
    }
    GatheredAnswer {
        refusal: 0,
        count,
        mixed,
    }
}

// What `each` says of the items, up to the first that it refuses.
fn gather<T: Copy, F: Fn(T) -> Result<u64, Refusal>>(items: &[T], each: F) -> GatheredAnswer
    requires { F.IsAlwaysCallable each }
    ensures { (f : _) → Tells (F.post each) f → result ≡ gathered (map f items.now) }
{
    let mut mixed = 0;
    for (count, item) in items.iter().enumerate() {
        match each(*item) {
            Ok(v) => mixed ^= v,
            Err(why) => {
                return GatheredAnswer {
                    refusal: why.number(),
                    count,
                    mixed,
                };
            }
        }
    }
    GatheredAnswer {
        refusal: 0,
        count: items.len(),
        mixed,
    }
}

// A number cut by the largest acknowledged, as one: its value, with its length above the value's four bytes.
fn cut_as_one(n: u64, acked: u64) -> Result<u64, Refusal>
    ensures { answer_of result ≡ cut_said (cut_made n acked) }
{
    let CutNumber(len, value) = number::new(FullNumber(n), FullNumber(acked))?;
    Ok(u64::from(value) + len as u64 * 0x1_0000_0000)
}

// Numbers to be sent, each cut by the largest acknowledged.
#[unsafe(no_mangle)]
pub extern "C" fn guobbarel_timed_cut(numbers: &[u64], acked: u64) -> GatheredAnswer
    ensures { result ≡ gathered (cuts_of acked numbers.now) }
{
    gather(numbers, |n| cut_as_one(n, acked))
}

// The full number of a cut one of `len` bytes, by the expected one.
fn full(value: u32, len: usize, expected: u64) -> Result<u64, Refusal>
    ensures { answer_of result ≡ expanded (cut len value) expected }
{
    let FullNumber(n) = number::expand(CutNumber(len, value), expected)?;
    Ok(n)
}

// The full number of each cut one; where one is refused, 14.
#[unsafe(no_mangle)]
pub extern "C" fn guobbarel_timed_expand(
    values: &[u32],
    len: usize,
    expected: u64,
) -> GatheredAnswer
    ensures { result ≡ gathered (fulls_of len expected values.now) }
{
    gather(values, |value| full(value, len, expected))
}

impl From<Result<usize, Refusal>> for WriteAnswer {
    ghost from_gives = { λ w answer. answer ≡ write_record (answer_of w) };

    fn from(w: Result<usize, Refusal>) -> WriteAnswer {
        match w {
            Ok(len) => WriteAnswer { refusal: 0, len },
            Err(why) => WriteAnswer {
                refusal: why.number(),
                len: 0,
            },
        }
    }
}

#[unsafe(no_mangle)]
pub extern "C" fn guobbarel_timed_reset_stream(
    id: u64,
    error_code: u64,
    final_offset: u64,
    out: &mut [u8],
) -> WriteAnswer
    ensures { Writes (reset_stream_out id error_code final_offset) out.old result out.new }
{
    let frame = ResetStream {
        id: StreamId(id),
        error_code,
        final_offset,
    };
    frame_out::reset_stream(frame, out).into()
}

// A flag above 1 is 14.
#[unsafe(no_mangle)]
pub extern "C" fn guobbarel_timed_stream_meta(
    id: u64,
    start: u64,
    end: u64,
    fin: u8,
    has_length: u8,
    out: &mut [u8],
) -> WriteAnswer
    ensures { Writes (flagged fin (flagged has_length (meta_out id start end (eqb fin 1) (eqb has_length 1)))) out.old result out.new }
{
    if 1 < fin || 1 < has_length {
        return Err(Refusal::Argument).into();
    }
    let meta = StreamMeta {
        id: StreamId(id),
        start,
        end,
        fin: fin == 1,
    };
    frame_out::stream_meta(meta, has_length == 1, out).into()
}

#[unsafe(no_mangle)]
pub extern "C" fn guobbarel_timed_crypto(offset: u64, data: &[u8], out: &mut [u8]) -> WriteAnswer
    ensures { Writes (crypto_out offset «data».now) out.old result out.new }
{
    frame_out::crypto(offset, data, out).into()
}

// The connection id is the first id_len bytes.
#[unsafe(no_mangle)]
pub extern "C" fn guobbarel_timed_new_connection_id(
    sequence: u64,
    retire_prior_to: u64,
    id: &[u8; 20],
    id_len: u8,
    reset_token: &[u8; 16],
    out: &mut [u8],
) -> WriteAnswer
    ensures { Writes (new_cid_out sequence retire_prior_to (record { len = id_len; bytes = id.now }) reset_token.now) out.old result out.new }
{
    let cid = ConnectionId {
        len: id_len,
        bytes: *id,
    };
    frame_out::new_connection_id(sequence, retire_prior_to, cid, reset_token, out).into()
}

// A frame type of 0 says that there is none.
#[unsafe(no_mangle)]
pub extern "C" fn guobbarel_timed_connection_close(
    error_code: u64,
    frame_type: u64,
    reason: &[u8],
    max_len: usize,
    out: &mut [u8],
) -> WriteAnswer
    ensures { Writes (close_out (connection error_code (number frame_type)) reason.now max_len) out.old result out.new }
{
    let ty = Some(FrameType(frame_type));
    frame_out::connection_close(error_code, ty, reason, max_len, out).into()
}

// Without ECN counts.
#[unsafe(no_mangle)]
pub extern "C" fn guobbarel_timed_ack(delay: u64, list: &[u64], out: &mut [u8]) -> WriteAnswer
    ensures { Writes (ack_out delay list.now none) out.old result out.new }
{
    ack_out::ack(delay, list, None, out).into()
}

#[unsafe(no_mangle)]
pub extern "C" fn guobbarel_timed_dump(datagram: &[u8], out: &mut [u8]) -> WriteAnswer
    ensures { Writes (ok (dump_text datagram.now)) out.old result out.new }
{
    dump_text::dump(datagram, out).into()
}
