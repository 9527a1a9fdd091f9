// Ranks of cells, and a way round a cycle, by walks from cell to cell. Nothing is promised of either: `certificate` checks them.
ghost use Rattle.std.specs.Prelude.{◌≡◌, ◌<◌, slice_index_or};
ghost use Rattle.cycles.specs.Works.{nothing, Cleared, NewWalk, rank_of, parent_of};

use super::leads::leads;
use tables::{Memory, Stack};

// More steps than a walk takes: it enters and leaves each of 4,096 cells once, and a cell leads to at most 63 cells.
const STEPS: usize = 4096 * 65;

// Components that are left get ranks from here down, which are above the numbers of cells that are entered.
const HIGHEST: u16 = 8192;

// What is noted of a cell.
#[derive(Clone, Copy, Default)]
pub struct Note {
    // 0 for a cell that was not entered (an Option would take more memory); else the lowest number of an entered cell that it
    // leads back to; in the end the rank
    rank: u16,
    // the cell from which it was entered; in the end the cell before it on a way round
    parent: u16,
    // how many of its leads were followed
    followed: u8,
    // whether it leads back to a cell with a lower number; in the end whether it was seen
    marked: bool,
}

// The work tables of the walks: 32,784 bytes.
#[derive(Drop)]
pub struct Walk {
    notes: [Note; 4096],
    // cells that were left and have no rank yet, or cells to look at
    waiting: Stack<u16, 4096>,
    entered: u16,
    rank: u16,
}

impl Walk {
    pub fn new() -> Walk
        ensures { NewWalk result }
    {
        Walk {
            notes: [Note::default(); 4096],
            waiting: Stack::new(0),
            entered: 0,
            rank: HIGHEST,
        }
    }

    // What is noted of a cell; the blank note beyond the last. Numbers beyond the last do not come up;
    // nothing is promised of the walk, so this needs no `requires`.
    fn note(&self, cell: usize) -> Note
        ensures { result ≡ slice_index_or self.now.notes cell nothing }
    {
        self.notes.get(cell).copied().unwrap_or_default()
    }

    // The rank of a cell, or 0 beyond the last.
    pub fn rank(&self, cell: usize) -> usize
        ensures rank { result ≡ rank_of self.now cell }
        ensures small { result < 65536 }
    {
        usize::from(self.note(cell).rank)
    }

    // The parent of a cell, or 0 beyond the last.
    pub fn parent(&self, cell: usize) -> usize
        ensures { result ≡ parent_of self.now cell }
    {
        usize::from(self.note(cell).parent)
    }

    // Forgets what was noted, as before the first walk.
    fn clear(&mut self)
        ensures { Cleared self.new }
    {
        self.notes = [Note::default(); 4096];
        self.waiting.truncate(0);
        self.entered = 0;
        self.rank = HIGHEST;
    }

    // Gives each cell the rank of its component: cells that lead to each other have the same, other leads go to a higher rank.
    pub fn rank_cells(&mut self, memory: &Memory) {
        self.clear();
        for root in 0..memory.used() as u16 {
            if self.rank(usize::from(root)) == 0 {
                self.walk_from(memory, root);
            }
        }
    }

    fn walk_from(&mut self, memory: &Memory, root: u16) {
        self.enter(root, root);
        let mut at = root;
        for _step in 0..STEPS {
            match self.next_lead(memory, at) {
                Some(next) => {
                    let number = self.note(usize::from(next)).rank;
                    if number == 0 {
                        self.enter(next, at);
                        at = next;
                    } else {
                        self.lower(at, number);
                    }
                }
                None => {
                    self.leave(at);
                    if at == root {
                        return;
                    }
                    let left = self.note(usize::from(at));
                    at = left.parent;
                    self.lower(at, left.rank);
                }
            }
        }
    }

    fn enter(&mut self, cell: u16, parent: u16) {
        self.entered = self.entered.wrapping_add(1);
        if let Some(note) = self.notes.get_mut(usize::from(cell)) {
            note.rank = self.entered;
            note.parent = parent;
        }
    }

    // The cell that comes next of those that a cell leads to.
    fn next_lead(&mut self, memory: &Memory, at: u16) -> Option<u16> {
        let note = self.notes.get_mut(usize::from(at))?;
        let span = leads(memory, usize::from(at));
        let next = span.start + usize::from(note.followed);
        if next < span.end {
            note.followed = note.followed.wrapping_add(1);
            Some(next as u16)
        } else {
            None
        }
    }

    // The cell leads back to one with that number.
    fn lower(&mut self, cell: u16, number: u16) {
        if let Some(note) = self.notes.get_mut(usize::from(cell)) {
            if number < note.rank {
                note.rank = number;
                note.marked = true;
            }
        }
    }

    // A cell that leads back to none with a lower number completes its component, whose members wait last.
    fn leave(&mut self, cell: u16) {
        let left = self.note(usize::from(cell));
        self.wait(cell);
        if left.marked {
            return;
        }
        let mut others = self.waiting.len();
        // with `rposition` the proof does not close: its closure reads the notes of `self` while the list of `self` is lent
        for place in (0..self.waiting.len()).rev() {
            let member = self.waiting.at(place);
            if self.note(usize::from(member)).rank < left.rank {
                break;
            }
            if let Some(note) = self.notes.get_mut(usize::from(member)) {
                note.rank = self.rank;
            }
            others = place;
        }
        self.waiting.truncate(others);
        self.rank = self.rank.wrapping_sub(1);
    }

    // There is room, since a cell waits once: the `if` only shows it.
    fn wait(&mut self, cell: u16) {
        if self.waiting.len() < 4096 {
            self.waiting.push(cell);
        }
    }

    // Looks from a cell over the cells of its rank that it reaches, until the list is through, and leaves in `parent` the way
    // to each, and back to the cell itself if one of them leads to it.
    pub fn trace(&mut self, memory: &Memory, cell: u16) {
        for note in self.notes.iter_mut() {
            note.marked = false;
        }
        self.waiting.truncate(0);
        self.wait(cell);
        // the list grows while it is gone through, so no iterator is held over it
        for place in 0..4096 {
            if place >= self.waiting.len() {
                return;
            }
            let at = self.waiting.at(place);
            for next in leads(memory, usize::from(at)) {
                self.see(cell, at, next as u16);
            }
        }
    }

    // Cell `at` leads to cell `next`.
    fn see(&mut self, cell: u16, at: u16, next: u16) {
        let rank = self.note(usize::from(cell)).rank;
        if let Some(note) = self.notes.get_mut(usize::from(next)) {
            if note.rank == rank && !note.marked {
                note.marked = true;
                note.parent = at;
                if next != cell {
                    self.wait(next);
                }
            }
        }
    }
}
