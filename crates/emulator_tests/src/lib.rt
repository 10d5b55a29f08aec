// Tests of the emulator and of the ECMA-48 terminal on examples, and what that terminal promises, in a crate of their own.
#![tactic(auto)]

mod ecma_promises;

#[cfg(test)]
mod tests {
    use ecma48::Ecma48;
    use emulator::Emulator;
    use faults::Fault;
    use pane::panes::Pane;
    use places::{Rectangle, Size, Spot};
    use terminal::terminals::Terminal;
    use text_cells::{Part, TextCell};

    const HASH: TextCell = TextCell {
        character: 35,
        part: Part::Single,
        attributes: 0,
    };

    // ESC [ 1 ; 1 H
    const HOME: [u8; 6] = [0x1B, 0x5B, 0x31, 0x3B, 0x31, 0x48];

    // 2 rows of 3 columns.
    const SMALL: Size = Size {
        rows: 2,
        columns: 3,
    };

    fn spot(row: usize, column: usize) -> Spot {
        Spot { row, column }
    }

    // An emulator of 2 rows of 3 columns, first all "#" with the cursor at home, after these bytes.
    fn after<'a>(cells: &'a mut [TextCell], bytes: &[u8]) -> Emulator<'a> {
        let mut emulator = Emulator::new(cells, SMALL);
        emulator.read_all(&HOME);
        emulator.read_all(bytes);
        emulator
    }

    // The character that it has at a spot after bytes that come in two parts.
    fn shown(first: &[u8], second: &[u8], at: Spot) -> Option<u32> {
        let mut cells = [HASH; 6];
        let mut emulator = after(&mut cells, first);
        emulator.read_all(second);
        emulator.grid.cell(at).map(|cell| cell.character)
    }

    // Its cursor after these bytes.
    fn cursor(bytes: &[u8]) -> Option<Spot> {
        let mut cells = [HASH; 6];
        after(&mut cells, bytes).cursor()
    }

    // What is at home once "a" came after these bytes: "a" itself if they were dropped before it, "#" if it was dropped with them.
    fn before_a(bytes: &[u8]) -> Option<u32> {
        shown(bytes, &[97], spot(0, 0))
    }

    #[test]
    fn a_byte_that_begins_no_longer_character_is_dropped_with_those_gathered(rt: HostRuntime) {
        assert_eq!(rt;
            (before_a(&[0xE0, 0x9F]), before_a(&[0xE0, 0xA0])),
            (Some(97), Some(35))
        );
        assert_eq!(rt;
            (before_a(&[0xED, 0x9F]), before_a(&[0xED, 0xA0])),
            (Some(35), Some(97))
        );
        assert_eq!(rt;
            (before_a(&[0xE1, 0x7F]), before_a(&[0xE1, 0x80])),
            (Some(97), Some(35))
        );
        assert_eq!(rt;
            (before_a(&[0xEF, 0xBF]), before_a(&[0xEF, 0xC0])),
            (Some(35), Some(97))
        );
    }

    #[test]
    fn characters_of_three_bytes_are_put_from_the_first_to_the_last_of_width_two(rt: HostRuntime) {
        assert_eq!(rt;
            (before_a(&[0xE4, 0xB7, 0xBF]), before_a(&[0xE4, 0xB8, 0x80])),
            (Some(97), Some(0x4E00))
        );
        assert_eq!(rt;
            (before_a(&[0xE9, 0xBF, 0xBF]), before_a(&[0xEA, 0x80, 0x80])),
            (Some(0x9FFF), Some(97))
        );
        assert_eq!(rt;
            (before_a(&[0xEA, 0xB0, 0x80]), before_a(&[0xED, 0x9E, 0xA3])),
            (Some(0xAC00), Some(0xD7A3))
        );
        assert_eq!(rt;
            (before_a(&[0xEF, 0xBC, 0x81]), before_a(&[0xEF, 0xBD, 0xA0])),
            (Some(0xFF01), Some(0xFF60))
        );
        assert_eq!(rt;
            (before_a(&[0xE0, 0xA0, 0x80]), before_a(&[0xEF, 0xBF, 0xBF])),
            (Some(97), Some(97))
        );
    }

    #[test]
    fn characters_of_four_bytes_have_no_width(rt: HostRuntime) {
        assert_eq!(rt;
            (
                before_a(&[0xF0, 0x90, 0x80, 0x80]),
                before_a(&[0xF4, 0x8F, 0xBF, 0xBF]),
            ),
            (Some(97), Some(97))
        );
        assert_eq!(rt;
            (before_a(&[0xF0, 0x8F]), before_a(&[0xF0, 0x90])),
            (Some(97), Some(35))
        );
        assert_eq!(rt;
            (before_a(&[0xF4, 0x8F]), before_a(&[0xF4, 0x90])),
            (Some(35), Some(97))
        );
        assert_eq!(rt;
            (before_a(&[0xF5]), before_a(&[0xF4])),
            (Some(97), Some(35))
        );
    }

    #[test]
    fn a_sequence_may_come_in_parts(rt: HostRuntime) {
        assert_eq!(rt;
            shown(&[0x1B, 0x5B, 0x32, 0x3B], &[0x33, 0x48, 98], spot(1, 2)),
            Some(98)
        );
        assert_eq!(rt;
            shown(&[0x1B], &[0x5B, 0x31, 0x43, 98], spot(0, 1)),
            Some(98)
        );
        assert_eq!(rt; shown(&[0xE4, 0xB8], &[0xAD], spot(0, 1)), Some(0x4E2D));
    }

    #[test]
    fn an_escape_inside_a_sequence_ends_it(rt: HostRuntime) {
        let inside = [0x1B, 0x5B, 0x31, 0x1B, 0x5B, 0x32, 0x43];
        assert_eq!(rt;
            (
                shown(&inside, &[], spot(0, 0)),
                shown(&inside, &[], spot(0, 1)),
                shown(&inside, &[], spot(0, 2)),
            ),
            (Some(0x5B), Some(0x32), Some(0x43))
        );
    }

    #[test]
    fn moves_stop_at_the_edge(rt: HostRuntime) {
        assert_eq!(rt;
            cursor(&[0x1B, 0x5B, 0x39, 0x39, 0x3B, 0x39, 0x39, 0x48]),
            Some(spot(1, 2))
        );
        assert_eq!(rt; cursor(&[0x1B, 0x5B, 0x39, 0x43]), Some(spot(0, 2)));
        assert_eq!(rt; cursor(&[0x1B, 0x5B, 0x39, 0x43, 98]), None);
    }

    // Does a terminal tell that it sent these bytes, one by one?
    fn tells(terminal: &Ecma48<'_>, bytes: &[u8]) -> bool {
        terminal.sent() == bytes.len()
            && bytes
                .iter()
                .enumerate()
                .all(|(index, byte)| terminal.sent_byte(index) == Some(*byte))
    }

    #[test]
    fn a_terminal_sends_the_shortest_move_and_the_pen_only_where_it_changes(rt: HostRuntime) {
        let mut cells = [HASH; 12];
        let mut line = [0u8; 40];
        let size = Size {
            rows: 2,
            columns: 6,
        };
        let mut terminal = Ecma48::new(&mut cells, size, &mut line);
        assert_eq!(rt; terminal.put(HASH), Err(Fault::CursorUnknown));
        assert_eq!(rt; terminal.move_to(spot(0, 1)), Ok(()));
        assert_eq!(rt; terminal.put(TextCell::new(97, Part::Single, 1)), Ok(()));
        assert_eq!(rt; terminal.put(TextCell::new(98, Part::Single, 1)), Ok(()));
        assert_eq!(rt; terminal.move_to(spot(0, 4)), Ok(()));
        let bytes = [
            0x1B, 0x5B, 0x31, 0x3B, 0x32, 0x48, 0x1B, 0x5B, 0x30, 0x3B, 0x31, 0x6D, 97, 98, 0x1B,
            0x5B, 0x31, 0x43,
        ];
        assert_eq!(rt; terminal.sent_bytes(), bytes.as_slice());
        assert!(rt; tells(&terminal, &bytes));
        assert_eq!(rt; terminal.sent_byte(18), None);
        let left = TextCell::new(0x4E2D, Part::Left, 0);
        assert_eq!(rt;
            terminal.put_pair(left, TextCell::new(0x4E2D, Part::Right, 0)),
            Ok(())
        );
        assert_eq!(rt; (terminal.sent(), terminal.cursor()), (25, None));
        assert_eq!(rt; terminal.move_to(spot(1, 0)), Ok(()));
        assert_eq!(rt;
            (terminal.room(), terminal.put(HASH)),
            (9, Err(Fault::LineFull))
        );
    }

    #[test]
    fn a_pane_cuts_a_wide_character_at_its_edge_and_the_other_half_is_blanked(rt: HostRuntime) {
        let left = TextCell::new(0x4E2D, Part::Left, 0);
        let mut cells = [left, TextCell::new(0x4E2D, Part::Right, 0), HASH, HASH];
        let mut line = [0u8; 40];
        let size = Size {
            rows: 1,
            columns: 4,
        };
        let mut terminal = Ecma48::new(&mut cells, size, &mut line);
        let area = Rectangle {
            top: 0,
            left: 1,
            height: 1,
            width: 2,
        };
        let mut pane = Pane::new(&mut terminal, area);
        assert_eq!(rt; pane.move_to(spot(0, 0)), Ok(()));
        assert_eq!(rt; pane.put(HASH), Ok(()));
        assert_eq!(rt;
            pane.put_pair(left, TextCell::new(0x4E2D, Part::Right, 0)),
            Err(Fault::OffGrid)
        );
        assert_eq!(rt;
            terminal.face.emulator.grid.cell(spot(0, 0)),
            Some(TextCell::new(32, Part::Single, 0))
        );
        assert_eq!(rt; terminal.face.emulator.grid.cell(spot(0, 1)), Some(HASH));
    }
}
