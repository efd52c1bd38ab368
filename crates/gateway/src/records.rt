// What goes over the surface by value, laid out as in C. include/guobbarel.h has the same records, field by field.
// An answer's refusal comes first: 0 for none, else document 01's number. What an answer does not have is 0.
// A place and a frame's answer are `gateway_frame`'s.
use gateway_frame::Span;

// A packet of a datagram. All but `packet`, which lies in the datagram, is counted from the packet's first byte.
#[repr(C)]
#[derive(Clone, Copy)]
pub struct SplitAnswer {
    pub refusal: u8,
    pub kind: u8,
    pub spin: u8,
    pub random: u8,
    pub version: u32,
    pub packet: Span,
    pub number_offset: usize,
    pub length: u64,
    pub token: Span,
    pub dst_cid: Span,
    pub src_cid: Span,
}

// The sample of a packet; one of no bytes where there is none.
#[repr(C)]
#[derive(Clone, Copy)]
pub struct SampleAnswer {
    pub refusal: u8,
    pub sample: Span,
}

// A packet without its header protection.
#[repr(C)]
#[derive(Clone, Copy)]
pub struct UnmaskAnswer {
    pub refusal: u8,
    pub reserved_clear: u8,
    pub key_phase: u8,
    pub number_value: u32,
    pub number_len: usize,
    pub header: Span,
    pub payload: Span,
}

// The two number ends of a space. A largest number counts only beside a 1.
#[repr(C)]
#[derive(Clone, Copy)]
pub struct NumberEnds {
    pub next: u64,
    pub acked: u64,
    pub largest: u64,
    pub has_acked: u8,
    pub has_largest: u8,
}

// The number ends of the three spaces.
#[repr(C)]
#[derive(Clone, Copy)]
pub struct NumberSpaces {
    pub initial: NumberEnds,
    pub handshake: NumberEnds,
    pub data: NumberEnds,
}

// The record after a step, and what the step says.
#[repr(C)]
#[derive(Clone, Copy)]
pub struct NumberAnswer {
    pub refusal: u8,
    pub number_value: u32,
    pub number_len: usize,
    pub number: u64,
    pub spaces: NumberSpaces,
}

// The header to write, without its connection ids and its token.
#[repr(C)]
#[derive(Clone, Copy)]
pub struct HeaderGiven {
    pub kind: u8,
    pub spin: u8,
    pub key_phase: u8,
    pub random: u8,
    pub version: u32,
    pub number_value: u32,
    pub number_len: usize,
}

// What a header was written with.
#[repr(C)]
#[derive(Clone, Copy)]
pub struct HeaderAnswer {
    pub refusal: u8,
    pub has_length: u8,
    pub header_len: usize,
    pub number_len: usize,
}
