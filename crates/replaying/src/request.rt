// A call with its numbers. D, S and T are registers; put, hole, done and void go to the structure that is half made. It is no
// `Call`, since it names no slip, and a list cannot ask for a collection.
#[derive(Clone, Copy)]
pub enum Request {
    Var { d: u64 },
    Atom { d: u64, n: u64 },
    Int { d: u64, z: i64 },
    Move { d: u64, s: u64 },
    Look { s: u64 },
    Arg { d: u64, s: u64, i: u64 },
    Same { s: u64, t: u64 },
    Unify { s: u64, t: u64 },
    Open,
    Retry,
    Last,
    Cut { k: u64 },
    Start { name: u64, arity: u64 },
    Put { s: u64 },
    Hole,
    Done { d: u64 },
    Void,
    Usage,
}

// What a line is.
#[derive(Clone, Copy)]
pub enum Entry {
    // a line without bytes, or one that begins with #
    Note,
    Request(Request),
    // the next lines, so many of them, are an image
    Load { lines: u64 },
}
