// The records, laid out as in C. include/guobbarel.h has the same, field by field. What an answer does not have is 0.

// A part of the slice that the call was given: len bytes from start on.
#[repr(C)]
#[derive(Clone, Copy)]
pub struct Span {
    pub start: usize,
    pub len: usize,
}

// What a frame says at an index: a number, a place in the payload, or nothing.
#[repr(C)]
#[derive(Clone, Copy)]
pub struct FrameValue {
    pub kind: u8,
    pub number: u64,
    pub place: Span,
}

impl FrameValue {
    pub(crate) const NOTHING: FrameValue = FrameValue {
        kind: 0,
        number: 0,
        place: Span { start: 0, len: 0 },
    };
}

// A frame of a payload. Its refusal comes first: 0 for none, else document 01's number.
#[repr(C)]
#[derive(Clone, Copy)]
pub struct FrameAnswer {
    pub refusal: u8,
    pub found: u8,
    pub has_type: u8,
    pub start: usize,
    pub next: usize,
    pub frame_type: u64,
    pub name: u64,
    pub value0: FrameValue,
    pub value1: FrameValue,
    pub value2: FrameValue,
    pub value3: FrameValue,
    pub value4: FrameValue,
    pub value5: FrameValue,
}

impl FrameAnswer {
    pub(crate) const NOTHING: FrameAnswer = FrameAnswer {
        refusal: 0,
        found: 0,
        has_type: 0,
        start: 0,
        next: 0,
        frame_type: 0,
        name: 0,
        value0: FrameValue::NOTHING,
        value1: FrameValue::NOTHING,
        value2: FrameValue::NOTHING,
        value3: FrameValue::NOTHING,
        value4: FrameValue::NOTHING,
        value5: FrameValue::NOTHING,
    };

    // PADDING but its places.
    pub(crate) const PADDING: FrameAnswer = FrameAnswer {
        found: 1,
        has_type: 1,
        ..FrameAnswer::NOTHING
    };
}
