use crate::frame::Frame;
use record::refusal::Refusal;

// What a start opens.
#[derive(Clone, Copy)]
pub struct Opened {
    pub frame: Frame,
    // The frame around, with its note of the element.
    pub around: Frame,
    // The first mismatch of the element's own rows.
    pub mismatch: Option<Refusal>,
}
