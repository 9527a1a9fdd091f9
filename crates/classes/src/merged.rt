// Two structures set equal, each named by its functor's cell.
#[derive(Clone, Copy)]
pub struct Merged {
    pub(crate) left: u16,
    pub(crate) right: u16,
}
