use tables::Stack;

mod methods;

// The work table of marking: cells that are marked and not yet looked at. A cell enters once, so the table cannot overflow.
#[derive(Drop)]
pub struct Pending {
    pub(crate) cells: Stack<u16, 4096>,
}
