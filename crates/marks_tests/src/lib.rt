// Tests of the mark keepers: both go through one list, at the edges of words and of the heap.
#![tactic(auto)]

#[cfg(test)]
mod tests {
    use marks::{BitMarks, ByteMarks, CELLS, Marks, count_below};
    use std::test::Fail;

    // Fails where the two differ. Crates of tests share no code; `assert_eq!` would take a handle that may end the process,
    // which only a test itself has.
    fn check_eq<T: PartialEq + Copy>(found: T, expected: T) -> Result<(), Fail> {
        if found == expected {
            return Ok(());
        }
        Err(Fail::new("found another value than expected"))
    }

    // Of an empty keeper.
    fn edges<M: Marks>(marks: &mut M) -> Result<(), Fail> {
        for n in [0, 63, 64, 4095, 4096, u64::MAX] {
            check_eq(marks.marked(n), false)?;
            marks.mark(n);
            check_eq(marks.marked(n), n < CELLS)?;
        }
        check_eq(count_below(marks, 0), 0)?;
        check_eq(count_below(marks, 64), 2)?;
        check_eq(count_below(marks, CELLS), 4)?;
        check_eq(count_below(marks, u64::MAX), 4)?;
        marks.clear();
        check_eq(count_below(marks, u64::MAX), 0)
    }

    #[test]
    fn byte_edges() -> Result<(), Fail> {
        edges(&mut ByteMarks::new())
    }

    #[test]
    fn bit_edges() -> Result<(), Fail> {
        edges(&mut BitMarks::new())
    }
}
