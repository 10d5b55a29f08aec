// Tests of grids, of the dumb terminal and of panes on examples, in a crate of their own.
#![tactic(auto)]

ghost use Rattle.std.specs.Prelude.{◌+◌};
ghost use Rattle.terminal.specs.Operations.{Move, Put, Effect};

mod dumb_promises;

use faults::Fault;
use pane::panes::Pane;
use pane::rectangles::Rectangle;
use places::Spot;
use terminal::terminals::Terminal;

// Whoever lends a terminal to a pane knows what a move there did to it.
fn move_in_pane<T: Terminal>(below: &mut T, area: Rectangle, to: Spot) -> Result<(), Fault>
    ensures { Effect T.Cell.LayerCell.layer T.Cell.TerminalCell.glyph (T.Terminal.meaning below.old) (T.Terminal.meaning below.new) (Move (area.top + to.row) (area.left + to.column)) result }
{
    let mut pane = Pane::new(below, area);
    pane.move_to(to)
}

// And what a put did.
fn put_in_pane<T: Terminal>(below: &mut T, area: Rectangle, cell: T::Cell) -> Result<(), Fault>
    ensures { Effect T.Cell.LayerCell.layer T.Cell.TerminalCell.glyph (T.Terminal.meaning below.old) (T.Terminal.meaning below.new) (Put cell) result }
{
    let mut pane = Pane::new(below, area);
    pane.put(cell)
}

#[cfg(test)]
mod tests {
    use byte_cells::ByteCell;
    use dumb::Dumb;
    use faults::Fault;
    use grids::grids::Grid;
    use pane::panes::Pane;
    use pane::rectangles::Rectangle;
    use places::{Size, Spot};
    use showing::show_row;
    use terminal::terminals::Terminal;
    use text_cells::{Part, TextCell};

    const LETTER: ByteCell = ByteCell { byte: 97 };

    fn area(top: usize, left: usize, height: usize, width: usize) -> Rectangle {
        Rectangle {
            top,
            left,
            height,
            width,
        }
    }

    fn at(row: usize, column: usize) -> Spot {
        Spot { row, column }
    }

    fn size(rows: usize, columns: usize) -> Size {
        Size { rows, columns }
    }

    #[test]
    fn a_line_is_full_with_less_room_than_the_need(rt: HostRuntime) {
        let mut cells = [LETTER; 12];
        let mut line = [0u8; 8];
        let mut dumb = Dumb::new(&mut cells, size(2, 6), &mut line);
        assert_eq!(rt; dumb.move_to(at(1, 2)), Ok(()));
        assert_eq!(rt; dumb.room(), 4);
        assert_eq!(rt; dumb.put(LETTER), Ok(()));
        assert_eq!(rt; dumb.room(), 3);
        assert_eq!(rt; dumb.put(LETTER), Err(Fault::LineFull));
        assert_eq!(rt; dumb.move_to(at(0, 0)), Err(Fault::LineFull));
        assert_eq!(rt; dumb.cursor(), Some(at(1, 3)));
        assert_eq!(rt; (dumb.tally(), dumb.sent()), (1, 5));
        for (index, byte) in [0x1B, 0x3D, 33, 34, 97].iter().enumerate() {
            assert_eq!(rt; dumb.sent_byte(index), Some(*byte));
        }
        assert_eq!(rt; dumb.sent_byte(5), None);
        assert_eq!(rt; dumb.sent_bytes(), [0x1B, 0x3D, 33, 34, 97].as_slice());
        dumb.empty();
        assert_eq!(rt; dumb.room(), 8);
        assert_eq!(rt; dumb.cursor(), Some(at(1, 3)));
        assert_eq!(rt; dumb.sent_byte(0), None);
        assert_eq!(rt; dumb.put(LETTER), Ok(()));
        assert_eq!(rt; dumb.sent_byte(0), Some(97));
    }

    // What a move answers on a terminal of one spot over that line memory, and the room afterwards.
    fn moved(line: &mut [u8]) -> (Result<(), Fault>, usize) {
        let mut cells = [LETTER];
        let mut dumb = Dumb::new(&mut cells, size(1, 1), line);
        let answer = dumb.move_to(at(0, 0));
        (answer, dumb.room())
    }

    #[test]
    fn a_move_takes_the_last_four_bytes(rt: HostRuntime) {
        assert_eq!(rt; moved(&mut []), (Err(Fault::LineFull), 0));
        assert_eq!(rt; moved(&mut [0; 1]), (Err(Fault::LineFull), 1));
        assert_eq!(rt; moved(&mut [0; 2]), (Err(Fault::LineFull), 2));
        assert_eq!(rt; moved(&mut [0; 3]), (Err(Fault::LineFull), 3));
        assert_eq!(rt; moved(&mut [0; 4]), (Ok(()), 0));
    }

    #[test]
    fn past_the_last_column_the_cursor_is_unknown(rt: HostRuntime) {
        let mut cells = [LETTER; 12];
        let mut line = [0u8; 40];
        let mut dumb = Dumb::new(&mut cells, size(2, 6), &mut line);
        assert_eq!(rt; dumb.put(LETTER), Err(Fault::CursorUnknown));
        assert_eq!(rt; dumb.move_to(at(0, 6)), Err(Fault::OffGrid));
        assert_eq!(rt; dumb.move_to(at(2, 0)), Err(Fault::OffGrid));
        assert_eq!(rt; dumb.move_to(at(0, 5)), Ok(()));
        assert_eq!(rt; dumb.put(LETTER), Ok(()));
        assert_eq!(rt; dumb.cursor(), None);
        assert_eq!(rt; dumb.put(LETTER), Err(Fault::CursorUnknown));
        assert_eq!(rt; dumb.put(ByteCell { byte: 127 }), Err(Fault::NotDrawable));
        assert_eq!(rt; dumb.put_pair(LETTER, LETTER), Err(Fault::NotDrawable));
        assert_eq!(rt; dumb.tally(), 1);
    }

    #[test]
    fn a_pane_of_a_pane_counts_from_its_own_corner(rt: HostRuntime) {
        let mut cells = [LETTER; 40];
        let mut line = [0u8; 40];
        let mut dumb = Dumb::new(&mut cells, size(4, 10), &mut line);
        let mut outer = Pane::new(&mut dumb, area(1, 2, 3, 6));
        assert_eq!(rt; Pane::check(&outer, area(1, 1, 2, 4)), Ok(()));
        let mut inner = Pane::new(&mut outer, area(1, 1, 2, 4));
        assert_eq!(rt; (inner.rows(), inner.columns()), (2, 4));
        assert_eq!(rt; inner.move_to(at(2, 0)), Err(Fault::OffGrid));
        assert_eq!(rt; inner.move_to(at(0, 4)), Err(Fault::OffGrid));
        assert_eq!(rt; inner.put(LETTER), Err(Fault::CursorUnknown));
        assert_eq!(rt; inner.move_to(at(1, 2)), Ok(()));
        assert_eq!(rt; inner.cursor(), Some(at(1, 2)));
        assert_eq!(rt; inner.put_pair(LETTER, LETTER), Err(Fault::NotDrawable));
        assert_eq!(rt; inner.put(LETTER), Ok(()));
        assert_eq!(rt; inner.put(LETTER), Ok(()));
        assert_eq!(rt; inner.cursor(), None);
        assert_eq!(rt; inner.put(LETTER), Err(Fault::CursorUnknown));
        assert_eq!(rt; inner.tally(), 2);
        assert_eq!(rt; outer.cursor(), Some(at(2, 5)));
        assert_eq!(rt; outer.put(LETTER), Ok(()));
        assert_eq!(rt; outer.cursor(), None);
        assert_eq!(rt; dumb.cursor(), Some(at(3, 8)));
        assert_eq!(rt; dumb.room(), 33);
        assert_eq!(rt; dumb.sent_byte(2), Some(35));
        assert_eq!(rt; dumb.sent_byte(3), Some(37));
    }

    #[test]
    fn a_row_is_shown_up_to_the_first_refusal(rt: HostRuntime) {
        let mut cells = [ByteCell { byte: 35 }; 6];
        let mut line = [0u8; 10];
        let mut dumb = Dumb::new(&mut cells, size(2, 3), &mut line);
        assert_eq!(rt;
            show_row(&mut dumb, 0, &[LETTER; 4]),
            Err(Fault::CursorUnknown)
        );
        assert_eq!(rt; (dumb.sent(), dumb.tally(), dumb.cursor()), (7, 3, None));
        assert_eq!(rt; show_row(&mut dumb, 1, &[LETTER; 3]), Err(Fault::LineFull));
        assert_eq!(rt; show_row(&mut dumb, 2, &[]), Err(Fault::OffGrid));
        dumb.empty();
        assert_eq!(rt; show_row(&mut dumb, 1, &[]), Ok(()));
        assert_eq!(rt; (dumb.sent(), dumb.cursor()), (4, Some(at(1, 0))));
    }

    // What the check answers of a size over that memory, and the rows and columns of the terminal made so.
    fn sized(size: Size, cells: &mut [ByteCell]) -> (Result<(), Fault>, usize, usize) {
        let answer = Dumb::check(size, cells.len());
        let mut line = [0u8; 8];
        let dumb = Dumb::new(cells, size, &mut line);
        (answer, dumb.rows(), dumb.columns())
    }

    #[test]
    fn unfit_sizes_are_refused_and_have_no_rows(rt: HostRuntime) {
        let bad = (Err(Fault::BadSize), 0, 0);
        let unfit = (Err(Fault::MemoryLength), 0, 0);
        assert_eq!(rt; sized(size(0, 3), &mut []), bad);
        assert_eq!(rt; sized(size(25, 1), &mut [LETTER; 25]), bad);
        assert_eq!(rt; sized(size(1, 81), &mut [LETTER; 81]), bad);
        assert_eq!(rt; sized(size(2, 3), &mut [LETTER; 5]), unfit);
        assert_eq!(rt; sized(size(1, 1), &mut []), unfit);
        assert_eq!(rt; sized(size(24, 1), &mut [LETTER; 24]), (Ok(()), 24, 1));
        assert_eq!(rt; sized(size(1, 80), &mut [LETTER; 80]), (Ok(()), 1, 80));
    }

    #[test]
    fn a_grid_may_have_no_cells(rt: HostRuntime) {
        let mut none: [TextCell; 0] = [];
        let mut grid = Grid {
            cells: &mut none,
            size: Size::NONE,
        };
        let letter = TextCell::new(97, Part::Single, 0);
        assert_eq!(rt; (grid.rows(), grid.columns()), (0, 0));
        assert_eq!(rt; grid.cell(at(0, 0)), None);
        assert_eq!(rt; grid.put(at(0, 0), letter), Err(Fault::OffGrid));
    }

    // What the check answers of a rectangle, the rows and columns of the pane made on it, and what a move to its corner answers.
    fn framed(rectangle: Rectangle) -> (Result<(), Fault>, usize, usize, Result<(), Fault>) {
        let mut cells = [LETTER; 12];
        let mut line = [0u8; 8];
        let mut dumb = Dumb::new(&mut cells, size(2, 6), &mut line);
        let answer = Pane::check(&dumb, rectangle);
        let mut pane = Pane::new(&mut dumb, rectangle);
        (answer, pane.rows(), pane.columns(), pane.move_to(at(0, 0)))
    }

    #[test]
    fn unfit_rectangles_are_refused_and_have_no_rows(rt: HostRuntime) {
        let most = usize::MAX;
        let unfit = [
            area(0, 0, 0, 1),
            area(0, 0, 1, 0),
            area(1, 0, 2, 1),
            area(0, 6, 1, 1),
            area(most, most, most, most),
        ];
        for rectangle in unfit {
            assert_eq!(rt;
                framed(rectangle),
                (Err(Fault::Outside), 0, 0, Err(Fault::OffGrid))
            );
        }
        assert_eq!(rt; framed(area(0, 0, 2, 6)), (Ok(()), 2, 6, Ok(())));
    }

    #[test]
    fn text_is_put_by_the_put_rule(rt: HostRuntime) {
        let letter = TextCell::new(97, Part::Single, 0);
        let blank = TextCell::new(32, Part::Single, 0);
        let left = TextCell::new(0x4E2D, Part::Left, 0);
        let right = TextCell::new(0x4E2D, Part::Right, 0);
        let mut two = [left, right];
        let mut grid = Grid {
            cells: &mut two,
            size: size(1, 2),
        };
        assert_eq!(rt; grid.put(at(0, 2), letter), Err(Fault::OffGrid));
        assert_eq!(rt; grid.put_pair(at(0, 1), left, right), Err(Fault::OffGrid));
        assert_eq!(rt; grid.put(at(0, 0), letter), Ok(()));
        assert_eq!(rt; two, [letter, blank]);
        let mut four = [left, right, left, right];
        let mut grid = Grid {
            cells: &mut four,
            size: size(1, 4),
        };
        assert_eq!(rt; grid.put_pair(at(0, 1), left, right), Ok(()));
        assert_eq!(rt; four, [blank, left, right, blank]);
    }
}
