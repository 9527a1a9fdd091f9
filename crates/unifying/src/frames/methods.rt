ghost use Rattle.std.specs.Prelude.{◌≡◌, ◌<◌, [], ◌∷◌, length};
ghost use Rattle.heaps.specs.Lists.{Each};
ghost use Rattle.unifying.specs.Frames.{rows_of, pairs};
ghost use Rattle.unifying.specs.Walking.{Draws, Inside};

use super::{Frame, Frames};
use tables::Stack;

impl Frames {
    // No arguments are to be gone through.
    pub fn new() -> Frames
        ensures { pairs result ≡ [] }
    {
        let none = Frame {
            left: 0,
            right: 0,
            count: 0,
        };
        Frames {
            stack: Stack::new(none),
        }
    }

    pub(crate) fn clear(&mut self)
        ensures { pairs self.new ≡ [] }
    {
        self.stack.truncate(0);
    }

    pub(crate) fn push(&mut self, frame: Frame)
        requires { length (pairs self.old) < 4096 }
        ensures { pairs self.new ≡ rows_of frame ∷ pairs self.old }
    {
        self.stack.push(frame);
    }

    // The next two cells to be gone through. Rows that have none left leave.
    pub(crate) fn next(&mut self) -> Option<(u16, u16)>
        requires { Each Inside (pairs self.old) }
        ensures { Draws (pairs self.old) result (pairs self.new) }
    {
        while let Some(frame) = self.stack.pop() {
            if frame.count > 0 {
                self.push(Frame {
                    left: frame.left + 1,
                    right: frame.right + 1,
                    count: frame.count - 1,
                });
                return Some((frame.left, frame.right));
            }
        }
        None
    }
}
