use tables::Memory;

mod filling;
mod places;

// Tables of which a part is read: how many registers, trail tops and saved registers there are so far.
// Each heap top so far has opened a choice point.
#[derive(Drop)]
pub(crate) struct Draft {
    memory: Memory,
    registers: u64,
    trail_tops: u64,
    saved: u64,
}
