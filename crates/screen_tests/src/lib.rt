// Tests of the screen record on examples, in a crate of their own.
#![tactic(auto)]

#[cfg(test)]
mod tests {
    use byte_cells::ByteCell;
    use faults::Fault;
    use places::{Rectangle, Size, Spot};
    use screen::records::Screen;
    use std::process::Abort;

    const BLANK: ByteCell = ByteCell { byte: 32 };

    fn spot(row: usize, column: usize) -> Spot {
        Spot { row, column }
    }

    fn size(rows: usize, columns: usize) -> Size {
        Size { rows, columns }
    }

    fn rectangle(top: usize, left: usize, height: usize, width: usize) -> Rectangle {
        Rectangle {
            top,
            left,
            height,
            width,
        }
    }

    #[test]
    fn sizes_at_their_limits(rt: HostRuntime) {
        let mut screen = Screen::new();
        assert_eq!(rt; screen.touched(0), Err(Fault::OffScreen));
        assert_eq!(rt; screen.set_up(size(64, 128), 65535), Ok(()));
        assert_eq!(rt; screen.set_up(size(65, 128), 65535), Err(Fault::BadSize));
        assert_eq!(rt; screen.set_up(size(64, 129), 65536), Err(Fault::BadSize));
        assert_eq!(rt; screen.set_up(size(64, 128), 65536), Err(Fault::CellCount));
        assert_eq!(rt; screen.place(spot(63, 127)), Ok(()));
        assert_eq!(rt; screen.place(spot(64, 0)), Err(Fault::OffScreen));
    }

    // Eight windows of two cells.
    fn make_eight(rt: &impl Abort, screen: &mut Screen, memory: &mut [ByteCell]) {
        for number in 0..8usize {
            assert_eq!(rt; screen.window(memory, size(1, 2)), Ok(number));
        }
    }

    #[test]
    fn sixteen_windows_and_one_more(rt: HostRuntime) {
        let mut memory = [BLANK; 32];
        let mut screen = Screen::new();
        assert_eq!(rt; screen.set_up(size(4, 8), 32), Ok(()));
        make_eight(&rt, &mut screen, &mut memory);
        for window in 0..8usize {
            assert_eq!(rt;
                screen.subwindow(window, rectangle(0, 1, 1, 1)),
                Ok(window + 8)
            );
        }
        let one = rectangle(0, 0, 1, 1);
        assert_eq!(rt;
            screen.window(&mut memory, size(1, 1)),
            Err(Fault::TooManyWindows)
        );
        assert_eq!(rt; screen.subwindow(15, one), Err(Fault::TooManyWindows));
        assert_eq!(rt; screen.subwindow(16, one), Err(Fault::NoWindow));
    }

    #[test]
    fn sixteen_panels_and_one_more(rt: HostRuntime) {
        let mut memory = [BLANK; 8];
        let mut list = [99usize; 16];
        let mut screen = Screen::new();
        let view = rectangle(0, 0, 1, 1);
        let at = spot(0, 3);
        assert_eq!(rt; screen.set_up(size(1, 6), 8), Ok(()));
        assert_eq!(rt; screen.window(&mut memory, size(1, 4)), Ok(0));
        for number in 0..16usize {
            assert_eq!(rt; screen.panel(number, 0, view, at), Ok(()));
            assert_eq!(rt; screen.show(number), Ok(()));
        }
        assert_eq!(rt; screen.panel(16, 0, view, at), Err(Fault::NoPanel));
        assert_eq!(rt; screen.panel(3, 0, view, at), Err(Fault::PanelShown));
        assert_eq!(rt; screen.cover(at, &mut list), Ok(16));
        assert_eq!(rt; screen.touched(0), Ok(Some((2, 4))));
    }

    #[test]
    fn texts_at_their_limits(rt: HostRuntime) {
        let mut memory = [BLANK; 255];
        let mut screen = Screen::new();
        let first = spot(0, 0);
        assert_eq!(rt; screen.set_up(size(1, 8), 255), Ok(()));
        assert_eq!(rt; screen.window(&mut memory, size(1, 255)), Ok(0));
        assert_eq!(rt; screen.write(&mut memory, 0, first, &[]), Ok(()));
        assert_eq!(rt; screen.write(&mut memory, 0, first, &[97; 255]), Ok(()));
        assert_eq!(rt;
            screen.write(&mut memory, 0, first, &[97; 256]),
            Err(Fault::TooLong)
        );
        assert_eq!(rt;
            screen.write(&mut memory, 0, spot(0, 254), &[0x4E2D]),
            Err(Fault::TooLong)
        );
        assert_eq!(rt;
            screen.write(&mut memory, 0, spot(0, 253), &[0x4E2D]),
            Ok(())
        );
        assert_eq!(rt;
            screen.write(&mut memory, 0, spot(0, 255), &[7]),
            Err(Fault::Outside)
        );
        assert_eq!(rt;
            screen.write(&mut memory, 0, first, &[97, 7]),
            Err(Fault::NoWidth)
        );
        assert_eq!(rt; memory[0].byte, 97);
        assert_eq!(rt; memory[254].byte, 63);
    }

    #[test]
    fn the_largest_numbers(rt: HostRuntime) {
        let mut memory = [BLANK; 16];
        let mut screen = Screen::new();
        let most = usize::MAX;
        let corner = spot(0, 0);
        assert_eq!(rt; screen.set_up(size(4, 4), 16), Ok(()));
        assert_eq!(rt; screen.window(&mut memory, size(4, 4)), Ok(0));
        assert_eq!(rt;
            screen.window(&mut memory, size(most, most)),
            Err(Fault::BadSize)
        );
        assert_eq!(rt;
            screen.subwindow(0, rectangle(most, 1, most, 1)),
            Err(Fault::Outside)
        );
        assert_eq!(rt;
            screen.panel(0, 0, rectangle(1, most, 1, most), corner),
            Err(Fault::Outside)
        );
        assert_eq!(rt;
            screen.panel(0, 0, rectangle(0, 0, 2, 2), spot(most, 3)),
            Err(Fault::OffScreen)
        );
        assert_eq!(rt;
            screen.punch(&mut memory, 0, spot(0, 1), most),
            Err(Fault::Outside)
        );
        assert_eq!(rt; screen.relocate(most, corner), Err(Fault::NoPanel));
    }
}
