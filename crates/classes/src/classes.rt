ghost use Rattle.std.specs.Prelude.{◌≡◌, length};
ghost use Rattle.classes.specs.Links.{merges_of, link_at, rank_at, Linked};

use super::merged::Merged;
use tables::Stack;

mod methods;

// A cell's place in the trees. The link of a root is 0, that of another cell one more than the cell above it:
// an Option<u16> would take twice the memory.
#[derive(Clone, Copy)]
struct Node {
    link: u16,
    rank: u16,
}

// Classes of cells, as trees: the class of lower rank is hung under the root of the other, so that chains stay short.
// Nodes and merges take 16,384 bytes each, and the number of merges 8: 32,776 bytes.
#[derive(Drop)]
pub struct Classes {
    nodes: [Node; 4096],
    merged: Stack<Merged, 4096>,
    ghost whole: { length nodes ≡ 4096 },
    ghost linked: { ∥ Linked (merges_of merged) (link_at nodes) (rank_at nodes) ∥₁ },
}
