ghost use Rattle.std.specs.Prelude.{◌≡◌, ℕ, ◌<◌, List, [], ◌∷◌, ◌++◌, length, take, slice_index_or, slice_set, replicate, option_to_list, IsSome, ◌↔◌};
ghost use Rattle.tables.specs.Stacks.{listed};

use super::Stack;

impl<T: Copy, const N: usize> Stack<T, N> {
    // Nothing in use; `blank` fills the spare places.
    pub fn new(blank: T) -> Stack<T, N>
        ensures empty { listed result ≡ [] }
        ensures spare { result.items ≡ replicate N blank }
    {
        Stack {
            items: [blank; N],
            len: 0,
        }
    }

    // How many places are in use.
    pub fn len(&self) -> usize
        ensures { result ≡ length (listed self.now) }
    {
        self.len // the array has further, spare places
    }

    // The places in use, from the first on.
    pub fn as_slice(&self) -> &[T]
        ensures { result.now ≡ listed self.now }
    {
        &self.items[..self.len]
    }

    pub fn at(&self, place: usize) -> T
        requires { place < length (listed self.now) }
        ensures { (d : T) → result ≡ slice_index_or (listed self.now) place d }
    {
        self.items[place]
    }

    pub fn set(&mut self, i: usize, x: T)
        requires { i < length (listed self.old) }
        ensures { listed self.new ≡ slice_set (listed self.old) i x }
    {
        self.items[i] = x;
    }

    pub fn push(&mut self, x: T)
        requires { length (listed self.old) < N }
        ensures { listed self.new ≡ listed self.old ++ (x ∷ []) }
    {
        self.items[self.len] = x;
        self.len += 1;
    }

    // What came last leaves, if anything is in use.
    pub fn pop(&mut self) -> Option<T>
        ensures items { listed self.old ≡ listed self.new ++ option_to_list result }
        ensures variant { IsSome result ↔ (0 < length (listed self.old)) }
    {
        let last = self.len.checked_sub(1)?;
        self.len = last;
        Some(self.items[last])
    }

    // Keeps the first n places, or all where there are fewer.
    pub fn truncate(&mut self, n: usize)
        ensures { listed self.new ≡ take n (listed self.old) }
    {
        if n < self.len {
            self.len = n;
        }
    }
}
