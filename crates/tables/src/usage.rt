// How many cells, trail entries and choice points are in use.
#[derive(Clone, Copy, PartialEq, Eq)]
pub struct Usage {
    pub used: u64,
    pub entries: u64,
    pub points: u64,
}
