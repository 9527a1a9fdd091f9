ghost use Rattle.std.specs.Prelude.{◌≡◌, ℕ, ◌+◌, ◌<◌, false, [], ◌∷◌, length};
ghost use Rattle.classes.specs.Merges.{same_class, Joined};
ghost use Rattle.classes.specs.Links.{merges_of, merge_of, link_at, rank_at, put, Untouched, Linked, OnWay};
ghost use Rattle.classes.specs.Classes.{merges};

use super::super::merged::Merged;
use super::{Classes, Node};
use tables::Stack;

impl Classes {
    // Each cell is a class of its own.
    pub fn new() -> Classes
        ensures { merges result ≡ [] }
    {
        Classes {
            nodes: [Node { link: 0, rank: 0 }; 4096],
            merged: Stack::new(Merged { left: 0, right: 0 }),
        }
    }

    // The root of the cell's class.
    fn root(&self, p: usize) -> usize
        requires { p < 4096 }
        ensures class { OnWay (merges self.now) p result }
        ensures root { link_at self.now.nodes result ≡ 0 }
    {
        let mut at = p;
        while self.nodes[at].link != 0 {
            at = self.nodes[at].link as usize - 1;
        }
        at
    }

    pub fn same_class(&self, p: usize, q: usize) -> bool
        requires left { p < 4096 }
        requires right { q < 4096 }
        ensures { result ≡ same_class (merges self.now) p q }
    {
        self.root(p) == self.root(q)
    }

    // Joins the classes of two cells. There are fewer merges than cells, so there is room for one more.
    pub fn merge(&mut self, p: usize, q: usize)
        requires left { p < 4096 }
        requires right { q < 4096 }
        requires apart { same_class (merges self.old) p q ≡ false }
        ensures { merges self.new ≡ (p, q) ∷ merges self.old }
    {
        let a = self.root(p);
        let b = self.root(q);
        let under = self.nodes[a].rank;
        let over = self.nodes[b].rank;
        let merged = Merged {
            left: p as u16,
            right: q as u16,
        };
        if under < over {
            self.hang(a, b, over, merged);
        } else if over < under {
            self.hang(b, a, under, merged);
        } else {
            self.hang(b, a, under + 1, merged);
        }
    }

    // Hangs the root c under the root d, which gets the rank.
    fn hang(&mut self, c: usize, d: usize, rank: u16, merge: Merged)
        requires below { c < 4096 }
        requires above { d < 4096 }
        requires room { length (merges self.old) < 4096 }
        requires linked { Linked (merge_of merge ∷ merges self.old) (put (link_at self.old.nodes) c (d + 1)) (put (rank_at self.old.nodes) d rank) }
        ensures { merges self.new ≡ merge_of merge ∷ merges self.old }
    {
        self.nodes[c].link = d as u16 + 1;
        self.nodes[d].rank = rank;
        self.merged.push(merge);
    }

    // Makes each cell a class of its own again. Only cells that merges name are written.
    pub fn clear(&mut self)
        ensures { merges self.new ≡ [] }
    {
        blank(&mut self.nodes, &mut self.merged);
    }
}

// Takes back the merges, the newest first. This has the two fields alone: they belong together again only at the end.
fn blank(nodes: &mut [Node; 4096], merged: &mut Stack<Merged, 4096>)
    requires joined { Joined 4096 (merges_of merged.old) }
    requires untouched { Untouched (merges_of merged.old) (link_at nodes.old) (rank_at nodes.old) }
    ensures empty { merges_of merged.new ≡ [] }
    ensures links { (x : ℕ) → link_at nodes.new x ≡ 0 }
    ensures ranks { (x : ℕ) → rank_at nodes.new x ≡ 0 }
    ensures whole { length nodes.new ≡ 4096 }
{
    let root = Node { link: 0, rank: 0 };
    while let Some(m) = merged.pop() {
        nodes[m.left as usize] = root;
        nodes[m.right as usize] = root;
    }
}
