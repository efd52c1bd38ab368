// The closes, held to max_len bytes (frame.rs, Close, ConnectionClose and ApplicationClose).
ghost use Rattle.std.specs.Prelude.{◌≡◌, ◌+◌, ◌-◌, ◌≤◌, ◌<◌, length, take};
ghost use Rattle.coding.specs.Said.{answer_of};
ghost use Rattle.coding.specs.Varint.{var_size};
ghost use Rattle.coding.specs.Writing.{length_of, Written};
ghost use Rattle.frame_out.specs.Closes.{connection, application, is_connection, reason_cut, cut_out, close_out};
ghost use Rattle.frame_out.specs.Said.{type_word, closing_of};

use coding::{Refusal, VarInt};
use shared::FrameType;

// The smallest number of bytes that each is guaranteed to fit within, besides its reason.
pub const CONNECTION_CLOSE_SIZE_BOUND: usize = 1 + 8 + 8 + 8;

pub const APPLICATION_CLOSE_SIZE_BOUND: usize = 1 + 8 + 8;

// A close without its reason. The transport's error code may be any integer.
#[derive(Clone, Copy, PartialEq, Eq)]
pub enum CloseKind {
    Connection {
        error_code: u64,
        frame_type: Option<FrameType>,
    },
    Application {
        error_code: u64,
    },
}

impl CloseKind {
    pub fn is_transport_layer(self) -> bool
        ensures { result ≡ is_connection (closing_of self) }
    {
        matches!(self, CloseKind::Connection { .. })
    }
}

// How much of a reason max_len leaves, beside the fields of `fixed` bytes and the size of the whole reason's length; or 14.
fn kept(fixed: usize, reason: &[u8], max_len: usize) -> Result<usize, Refusal>
    requires { fixed ≤ 24 }
    ensures { answer_of result ≡ length_of (reason_cut (fixed + var_size (length reason.now)) max_len reason.now) }
{
    let len = reason.len();
    let all = fixed + VarInt(len as u64).size()?;
    if max_len < all {
        return Err(Refusal::Argument);
    }
    Ok(len.min(max_len - all))
}

// A close of integers. The last of them is the length of what is kept of the reason, and is set here. The others count by their
// sizes, the error code too, so that no frame is longer than max_len; the Rust counts two bytes for the transport's code.
fn close_of(
    vals: &mut [u64],
    reason: &[u8],
    max_len: usize,
    out: &mut [u8],
) -> Result<usize, Refusal>
    requires { (0 < length vals.old) × (length vals.old ≤ 4) }
    ensures { Written (cut_out (take (length vals.old - 1) vals.old) reason.now max_len) out.old (answer_of result) out.new }
{
    let last = vals.len() - 1;
    let size = row_out::vars_len(&vals[..last])?;
    let len = kept(size, reason, max_len)?;
    vals[last] = len as u64;
    row_out::frame_of(vals, &reason[..len], out)
}

pub fn connection_close(
    error_code: u64,
    frame_type: Option<FrameType>,
    reason: &[u8],
    max_len: usize,
    out: &mut [u8],
) -> Result<usize, Refusal>
    ensures { Written (close_out (connection error_code (type_word frame_type)) reason.now max_len) out.old (answer_of result) out.new }
{
    // no frame type is 0
    let ty = frame_type.map_or(0, |ty| ty.0);
    close_of(
        &mut [FrameType::CONNECTION_CLOSE.0, error_code, ty, 0],
        reason,
        max_len,
        out,
    )
}

pub fn application_close(
    error_code: u64,
    reason: &[u8],
    max_len: usize,
    out: &mut [u8],
) -> Result<usize, Refusal>
    ensures { Written (close_out (application error_code) reason.now max_len) out.old (answer_of result) out.new }
{
    close_of(
        &mut [FrameType::APPLICATION_CLOSE.0, error_code, 0],
        reason,
        max_len,
        out,
    )
}

pub fn close(
    kind: CloseKind,
    reason: &[u8],
    max_len: usize,
    out: &mut [u8],
) -> Result<usize, Refusal>
    ensures { Written (close_out (closing_of kind) reason.now max_len) out.old (answer_of result) out.new }
{
    match kind {
        CloseKind::Connection {
            error_code,
            frame_type,
        } => connection_close(error_code, frame_type, reason, max_len, out),
        CloseKind::Application { error_code } => application_close(
            error_code, reason, max_len, out,
        ),
    }
}
