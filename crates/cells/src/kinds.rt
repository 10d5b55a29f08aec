// What a cell kind tells: for composing, and for a terminal besides.
ghost use Rattle.std.specs.Prelude.{◌≡◌, true, Decides};
ghost use Rattle.cells.specs.Kinds.{Layer, Glyph, PunchedIsClear, Lawful};

// What a character with attributes makes: nothing is one of the four answers, and every caller matches on all of them at once.
#[derive(Clone, Copy, PartialEq, Eq, Debug)]
pub enum Made<C> {
    // no cell: the character takes no column, or the attributes are above 15
    Nothing,
    // one cell of its own
    Single(C),
    // a left and a right half that belong together
    Pair(C, C),
    // two cells of their own
    Singles(C, C),
}

// What composing asks of a cell kind.
pub trait LayerCell: Copy {
    // which cells are clear, the blank and the punched cell
    ghost layer: { Layer Self };

    // Does what lies below show through?
    fn is_clear(self) -> bool
        ensures { result ≡ layer.clear self };

    // The cell of a spot that nothing covers.
    fn blank() -> Self
        ensures { result ≡ layer.blank };

    // The clear cell that punching writes.
    fn punched() -> Self
        ensures told { result ≡ layer.punched }
        ensures clear { layer.clear result ≡ true };

    ghost punched_is_clear: { PunchedIsClear layer };
}

// What a terminal asks of its cell kind besides.
pub trait TerminalCell: LayerCell {
    // which cells are drawable, singles and halves, which halves belong together, what characters make
    ghost glyph: { Glyph Self };

    // Can a terminal show it?
    fn is_drawable(self) -> bool
        ensures told { result ≡ glyph.drawable self }
        ensures laws { Lawful Self.LayerCell.layer glyph };

    // Is it a whole character of one column?
    fn is_single(self) -> bool
        ensures { result ≡ glyph.single self };

    // Is it the left half of a character of two columns?
    fn is_left(self) -> bool
        ensures { result ≡ glyph.left self };

    // Is it the right half of a character of two columns?
    fn is_right(self) -> bool
        ensures { result ≡ glyph.right self };

    // Are the two cells equal?
    fn same(self, other: Self) -> bool
        ensures { Decides result (self ≡ other) };

    // Are `self` and `right` the left and the right half of one character?
    fn belongs_with(self, right: Self) -> bool
        ensures { result ≡ glyph.belong self right };

    // What a character with attributes makes.
    fn make(character: u32, attributes: u8) -> Made<Self>
        ensures { result ≡ glyph.make character attributes };

    ghost lawful: { Lawful Self.LayerCell.layer glyph };
}
