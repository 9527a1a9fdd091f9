//! Tests of the first fault: a table for each rule that it breaks, and heaps of full size.
#![tactic(auto)]

#[cfg(test)]
mod tests {
    use cells::Cell;
    use checking::{Work, check};
    use tables::Memory;

    // A cell that does not fit is left out. Crates of tests share no code.
    fn push(memory: &mut Memory, cell: Cell) {
        if memory.used() < 4096 && cell.in_range() {
            memory.push_cell(cell);
        }
    }

    fn with_cells(cells: &[Cell]) -> Memory {
        let mut memory = Memory::new();
        for cell in cells {
            push(&mut memory, *cell);
        }
        memory
    }

    fn trail(memory: &mut Memory, cell: usize) {
        if memory.trailed() < 4096 && cell < 4096 {
            memory.push_entry(cell);
        }
    }

    fn open(memory: &mut Memory) {
        if memory.depth() < 64 {
            memory.push_choice();
        }
    }

    // The number of the broken rule and the line at fault: rules by number, as imagecheck prints them.
    type Found = Result<(), (u8, u64)>;

    fn found(memory: &Memory) -> Found {
        check(memory, &mut Work::new()).map_err(|fault| (fault.rule.number(), fault.line))
    }

    const PAIR: Cell = Cell::Functor { name: 1, arity: 2 };

    #[test]
    fn cells(rt: HostRuntime) {
        let cases: [(&[Cell], Found); 7] = [
            (&[], Ok(())),
            (&[PAIR, Cell::Reference(1), Cell::Atom(0)], Ok(())),
            (&[Cell::Pointer(0), Cell::Reference(9)], Err((1, 3))),
            (&[Cell::Pointer(0)], Err((2, 2))),
            (&[PAIR, Cell::Atom(0)], Err((3, 2))),
            (
                &[Cell::Reference(1), Cell::Reference(2), Cell::Reference(1)],
                Err((7, 3)),
            ),
            (
                &[Cell::Pointer(1), PAIR, Cell::Atom(0), Cell::Pointer(1)],
                Err((7, 3)),
            ),
        ];
        for (i, (cells, expected)) in cases.iter().enumerate() {
            assert_eq!(rt; found(&with_cells(cells)), *expected, "case {i}");
        }
    }

    #[test]
    fn tables(rt: HostRuntime) {
        let mut memory = with_cells(&[Cell::Atom(0)]);
        memory.set_register(7, Cell::Reference(1));
        assert_eq!(rt; found(&memory), Err((4, 10)));
        let mut memory = with_cells(&[Cell::Atom(0), Cell::Atom(1)]);
        trail(&mut memory, 1);
        trail(&mut memory, 0);
        trail(&mut memory, 1);
        assert_eq!(rt; found(&memory), Err((5, 14)));
        let mut memory = with_cells(&[Cell::Atom(0), Cell::Atom(0)]);
        open(&mut memory);
        memory.cut_heap(1);
        assert_eq!(rt; found(&memory), Err((6, 11)));
        let mut memory = with_cells(&[Cell::Reference(1)]);
        open(&mut memory);
        push(&mut memory, Cell::Atom(0));
        assert_eq!(rt; found(&memory), Err((8, 12)));
        trail(&mut memory, 0);
        assert_eq!(rt; found(&memory), Ok(()));
    }

    // Each cell refers to the next, and the last to the given cell.
    fn chain(end: u64) -> Memory {
        let mut memory = Memory::new();
        for i in 0..4095 {
            push(&mut memory, Cell::Reference(i + 1));
        }
        push(&mut memory, Cell::Reference(end));
        memory
    }

    #[test]
    fn full_heaps(rt: HostRuntime) {
        for (end, expected) in [(0, Err((7, 2))), (4000, Err((7, 4002))), (4095, Ok(()))] {
            assert_eq!(rt; found(&chain(end)), expected, "end {end}");
        }
    }
}
