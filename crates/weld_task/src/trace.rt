// Where calls of a store are printed.
use std::fmt::Display;
use std::io;

// Where lines are printed, and the first fault of printing; after one nothing more is printed. A fault is kept until the end
// and not returned by `?`, since a caller that stops on the way would have a half-made structure to give up.
#[derive(Drop)]
pub(crate) struct Trace<'a> {
    rt: &'a HostRuntime,
    printed: io::Result<()>,
}

impl<'a> Trace<'a> {
    pub(crate) fn new(rt: &'a HostRuntime) -> Trace<'a> {
        Trace {
            rt,
            printed: Ok(()),
        }
    }

    // Prints a line.
    pub(crate) fn say(&mut self, text: impl Display + Drop) {
        if self.printed.is_ok() {
            self.printed = self.rt.println(text);
        }
    }

    // Whether all was printed.
    pub(crate) fn finish(self) -> io::Result<()> {
        self.printed
    }
}
