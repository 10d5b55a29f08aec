// How many columns a text takes.
ghost use Rattle.std.specs.Prelude.{◌≡◌, true, false, MatchOption};
ghost use Rattle.windows.specs.TextColumns.{has_no_width, text_columns};

use cells::widths::Width;

// The columns of a text, none if a character of it takes no column.
pub(crate) fn columns_of(text: &[u32]) -> Option<usize>
    ensures { MatchOption result (has_no_width text.now ≡ true) (λ n. (has_no_width text.now ≡ false) × (n ≡ text_columns text.now)) }
{
    let mut columns = 0;
    for character in text {
        match Width::of(*character) {
            Width::Zero => return None,
            width => columns += usize::from(width.columns()),
        }
    }
    Some(columns)
}
