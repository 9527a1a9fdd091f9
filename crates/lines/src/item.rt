use cells::Cell;

// What a line of an image says: the place that it fills, by its part and its index there, and what stands at it.
#[derive(Clone, Copy)]
pub enum Item {
    Heap(u64, Cell),
    Register(u64, Cell),
    Trail(u64, u64),
    HeapTop(u64, u64),
    TrailTop(u64, u64),
    Saved(u64, Cell),
}
