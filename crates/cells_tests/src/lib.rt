// Tests of the cells, of both kinds, of the refusals and of the pick list on examples, in a crate of their own.
#![tactic(auto)]

#[cfg(test)]
mod tests {
    use byte_cells::ByteCell;
    use cells::kinds::{Made, TerminalCell};
    use cells::rows::mend;
    use cells::widths::Width;
    use faults::{Fault, FaultLayer};
    use grids::grids::Grid;
    use pick_list::{Cursor, Laid, count_differing, lay, parse_width, row_cells, show_row};
    use places::{Size, Spot};
    use std::test::Fail;
    use text_cells::{Part, TextCell};

    // a character of two columns
    const RICE: u32 = 0x7C73;

    const BLANK: TextCell = TextCell {
        character: 32,
        part: Part::Single,
        attributes: 0,
    };

    const CLEAR: TextCell = TextCell {
        character: 0,
        part: Part::Clear,
        attributes: 0,
    };

    const UNKNOWN: ByteCell = ByteCell { byte: 63 };

    fn byte(byte: u8) -> ByteCell {
        ByteCell { byte }
    }

    #[test]
    fn widths_change_at_the_ends_of_the_ranges(rt: HostRuntime) {
        let zero = [
            0, 0x1F, 0x7F, 0xAD, 0x300, 0x4DFF, 0xA000, 0xABFF, 0xD7A4, 0xFF00, 0xFF61, 0x10FFFF,
            0xFFFFFFFF,
        ];
        for character in zero {
            assert_eq!(rt; Width::of(character), Width::Zero, "no column");
        }
        for character in [0x20, 0x7E, 0xAE, 0x2FF] {
            assert_eq!(rt; Width::of(character), Width::One, "one column");
        }
        for character in [0x4E00, 0x9FFF, 0xAC00, 0xD7A3, 0xFF01, 0xFF60] {
            assert_eq!(rt; Width::of(character), Width::Two, "two columns");
        }
        assert_eq!(rt;
            (
                Width::Zero.columns(),
                Width::One.columns(),
                Width::Two.columns(),
            ),
            (0, 1, 2)
        );
    }

    #[test]
    fn rows_of_at_most_one_text_cell_are_mended(rt: HostRuntime) {
        let mut none: [TextCell; 0] = [];
        mend(&mut none);
        assert_eq!(rt; none.len(), 0);
        let letter = TextCell::new(97, Part::Single, 15);
        let table = [
            (letter, letter),
            (TextCell::new(97, Part::Single, 16), BLANK),
            (TextCell::new(0x1F, Part::Single, 0), BLANK),
            (TextCell::new(RICE, Part::Left, 0), BLANK),
            (TextCell::new(RICE, Part::Right, 0), BLANK),
            (CLEAR, BLANK),
        ];
        for (raw, mended) in table {
            let mut row = [raw];
            mend(&mut row);
            assert_eq!(rt; row, [mended]);
        }
    }

    #[test]
    fn halves_stay_only_beside_their_own(rt: HostRuntime) {
        let letter = TextCell::new(97, Part::Single, 1);
        let left = TextCell::new(RICE, Part::Left, 2);
        let right = TextCell::new(RICE, Part::Right, 2);
        let bold = TextCell::new(RICE, Part::Right, 3);
        let other = TextCell::new(RICE + 1, Part::Right, 2);
        let undrawable = TextCell::new(RICE, Part::Right, 16);
        let table = [
            ([left, right, letter], [left, right, letter]),
            ([left, letter, right], [BLANK, letter, BLANK]),
            ([right, left, letter], [BLANK, BLANK, letter]),
            ([left, bold, letter], [BLANK, BLANK, letter]),
            ([left, other, letter], [BLANK, BLANK, letter]),
            ([left, undrawable, letter], [BLANK, BLANK, letter]),
            ([left, left, right], [BLANK, left, right]),
            ([left, right, right], [left, right, BLANK]),
            ([CLEAR, left, right], [BLANK, left, right]),
        ];
        for (raw, mended) in table {
            let mut row = raw;
            mend(&mut row);
            assert_eq!(rt; row, mended);
            mend(&mut row);
            assert_eq!(rt; row, mended, "mended twice");
        }
    }

    #[test]
    fn byte_rows_are_mended(rt: HostRuntime) {
        let mut none: [ByteCell; 0] = [];
        mend(&mut none);
        assert_eq!(rt; none.len(), 0);
        let mut row = [byte(0), byte(31), byte(32), byte(126), byte(127), byte(200)];
        mend(&mut row);
        assert_eq!(rt;
            row,
            [byte(32), byte(32), byte(32), byte(126), byte(32), byte(32)]
        );
    }

    #[test]
    fn characters_make_text_cells(rt: HostRuntime) {
        let table = [
            (0x1F, 0, Made::Nothing),
            (97, 15, Made::Single(TextCell::new(97, Part::Single, 15))),
            (97, 16, Made::Nothing),
            (0xE8, 0, Made::Single(TextCell::new(0xE8, Part::Single, 0))),
            (
                RICE,
                9,
                Made::Pair(
                    TextCell::new(RICE, Part::Left, 9),
                    TextCell::new(RICE, Part::Right, 9),
                ),
            ),
            (RICE, 16, Made::Nothing),
        ];
        for (character, attributes, made) in table {
            assert_eq!(rt; TextCell::make(character, attributes), made);
        }
    }

    #[test]
    fn characters_make_byte_cells(rt: HostRuntime) {
        let table = [
            (0x1F, 0, Made::Nothing),
            (126, 15, Made::Single(byte(126))),
            (97, 16, Made::Nothing),
            (0xAE, 0, Made::Single(UNKNOWN)),
            (0x2FF, 0, Made::Single(UNKNOWN)),
            (RICE, 0, Made::Singles(UNKNOWN, UNKNOWN)),
            (RICE, 16, Made::Nothing),
        ];
        for (character, attributes, made) in table {
            assert_eq!(rt; ByteCell::make(character, attributes), made);
        }
    }

    #[test]
    fn refusals_have_their_numbers_and_layers(rt: HostRuntime) {
        let table = [
            (Fault::BadSize, 1, FaultLayer::Screen),
            (Fault::TooManyWindows, 2, FaultLayer::Screen),
            (Fault::CellCount, 3, FaultLayer::Screen),
            (Fault::NoWindow, 4, FaultLayer::Screen),
            (Fault::Outside, 5, FaultLayer::Screen),
            (Fault::NoPanel, 6, FaultLayer::Screen),
            (Fault::PanelShown, 7, FaultLayer::Screen),
            (Fault::OffScreen, 8, FaultLayer::Screen),
            (Fault::PanelHidden, 9, FaultLayer::Screen),
            (Fault::NoWidth, 10, FaultLayer::Screen),
            (Fault::TooLong, 11, FaultLayer::Screen),
            (Fault::BadAttributes, 12, FaultLayer::Screen),
            (Fault::TooSmallForBox, 13, FaultLayer::Screen),
            (Fault::SizesDiffer, 14, FaultLayer::Screen),
            (Fault::MemoryLength, 15, FaultLayer::Screen),
            (Fault::OffGrid, 21, FaultLayer::Terminal),
            (Fault::LineFull, 22, FaultLayer::Terminal),
            (Fault::NotDrawable, 23, FaultLayer::Terminal),
            (Fault::CursorUnknown, 24, FaultLayer::Terminal),
        ];
        for (fault, number, layer) in table {
            assert_eq!(rt; (fault.number(), fault.layer()), (number, layer));
        }
    }

    #[test]
    fn the_width_is_a_number_from_1_to_128(rt: HostRuntime) {
        for line in ["", "0", "129", "256", "x", "-1", " 5", "5 ", "+"] {
            assert_eq!(rt; parse_width(line.as_bytes()), None, "{}", line);
        }
        assert_eq!(rt; parse_width(b"\xFF"), None);
        for (line, width) in [("1", 1), ("128", 128), ("020", 20), ("+7", 7)] {
            assert_eq!(rt; parse_width(line.as_bytes()), Some(width), "{}", line);
        }
    }

    #[test]
    fn text_is_laid_and_cut(rt: HostRuntime) {
        let mut none: [TextCell; 0] = [];
        let text = ['a', '米', '\t'];
        let counts = Laid {
            laid: 0,
            cut: 3,
            dropped: 1,
        };
        assert_eq!(rt; lay(&text, &mut none), counts);
        let mut row = [CLEAR, CLEAR];
        let counts = Laid {
            laid: 2,
            cut: 1,
            dropped: 1,
        };
        assert_eq!(rt; lay(&text, &mut row), counts);
        assert_eq!(rt;
            row,
            [
                TextCell::new(97, Part::Single, 0),
                TextCell::new(RICE, Part::Left, 0),
            ]
        );
        let mut bytes = [byte(0); 4];
        let counts = Laid {
            laid: 3,
            cut: 0,
            dropped: 1,
        };
        assert_eq!(rt; lay(&text, &mut bytes), counts);
        assert_eq!(rt; bytes, [byte(97), UNKNOWN, UNKNOWN, byte(32)]);
    }

    #[test]
    fn changes_are_counted_and_rows_shown(rt: HostRuntime) -> Result<(), Fail> {
        let raw = [
            TextCell::new(RICE, Part::Left, 0),
            TextCell::new(RICE, Part::Right, 0),
            CLEAR,
        ];
        let mut mended = raw;
        mend(&mut mended);
        assert_eq!(rt; count_differing(&raw, &mended), 1);
        assert_eq!(rt; count_differing(&raw, &[BLANK]), 1);
        assert_eq!(rt; show_row(rt.alloc(), &raw)?.as_str(), "米?");
        assert_eq!(rt; show_row(rt.alloc(), &mended)?.as_str(), "米 ");
        assert_eq!(rt; show_row(rt.alloc(), &[byte(97), byte(0)])?.as_str(), "a?");
        Ok(())
    }

    #[test]
    fn rows_of_a_grid_are_read(rt: HostRuntime) -> Result<(), Fail> {
        let mut memory = [byte(97), byte(98), byte(99), byte(100)];
        let mut grid = Grid {
            cells: &mut memory,
            size: Size {
                rows: 2,
                columns: 2,
            },
        };
        let last = row_cells(rt.alloc(), &mut grid, 1)?;
        assert_eq!(rt; last.as_slice(), [byte(99), byte(100)].as_slice());
        assert_eq!(rt;
            row_cells(rt.alloc(), &mut grid, 2)?.len(),
            0,
            "off the grid"
        );
        Ok(())
    }

    #[test]
    fn cursors_are_told(rt: HostRuntime) -> Result<(), Fail> {
        let spot = Spot { row: 3, column: 10 };
        let told = format!(in rt.alloc(); "{}", Cursor(Some(spot)))?;
        assert_eq!(rt; told.as_str(), "cursor 3 10");
        let told = format!(in rt.alloc(); "{}", Cursor(None))?;
        assert_eq!(rt; told.as_str(), "cursor unknown");
        Ok(())
    }
}
