use tables::Stack;

mod methods;

// Neighbouring argument cells that are still to be gone through: so many, from two places on.
#[derive(Clone, Copy)]
pub struct Frame {
    pub(crate) left: u16,
    pub(crate) right: u16,
    pub(crate) count: u8,
}

// The arguments still to be gone through. A frame comes with a merge, and there are fewer merges than cells.
// 4,096 frames of 6 bytes and their number: 24,584 bytes.
#[derive(Drop)]
pub struct Frames {
    stack: Stack<Frame, 4096>,
}
