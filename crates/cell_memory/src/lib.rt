// Cells written into memory of the caller's, by addresses. An address past the memory's end is not written.
#![tactic(auto)]

ghost use Rattle.std.specs.Prelude.{◌≡◌, ◌+◌, ◌-◌, length, slice_index_or};
ghost use Rattle.areas.specs.Memories.{by_address};
ghost use Rattle.cell_memory.specs.Texts.{cells_in, cells_of};
ghost use Rattle.cell_memory.specs.Writing.{filled, shifted, written};

use cells::kinds::{LayerCell, Made, TerminalCell};

// Writes a cell at each of `count` addresses: the first and how many, since their end may be past all numbers.
pub fn fill<C: LayerCell>(memory: &mut [C], from: usize, count: usize, cell: C)
    ensures { memory.new ≡ by_address memory.old (filled C.LayerCell.layer memory.old from count cell) }
{
    let end = from.saturating_add(count).min(memory.len());
    memory[from.min(end)..end].fill_with(|| cell);
}

// The cell at an address, the blank past the memory's end.
fn cell_or_blank<C: LayerCell>(memory: &[C], address: usize) -> C
    ensures { result ≡ slice_index_or memory.now address C.LayerCell.layer.blank }
{
    memory.get(address).copied().unwrap_or(C::blank())
}

// Writes at each of `count` addresses the cell that lay `distance` further on.
pub fn shift<C: LayerCell>(memory: &mut [C], to: usize, distance: usize, count: usize)
    ensures { memory.new ≡ by_address memory.old (shifted C.LayerCell.layer memory.old to distance count) }
{
    let end = to.saturating_add(count).min(memory.len());
    // no plainer by `copy_within`: that needs the bounds of what lies in memory, and the blanks after it apart
    for address in to..end {
        memory[address] = cell_or_blank(memory, address.saturating_add(distance));
    }
}

// Writes a cell, unless the address lies past the memory's end.
fn put<C: LayerCell>(memory: &mut [C], address: usize, cell: C)
    ensures { memory.new ≡ by_address memory.old (filled C.LayerCell.layer memory.old address 1 cell) }
{
    // not by `fill`: a text is written cell by cell, and the two ends of a part cost more than one test
    if address < memory.len() {
        memory[address] = cell;
    }
}

// Writes the cells that a character made from an address on, and says how many they are.
pub fn put_made<C: LayerCell>(memory: &mut [C], address: usize, made: Made<C>) -> usize
    ensures count { result ≡ length (cells_in made) }
    ensures after { memory.new ≡ by_address memory.old (written C.LayerCell.layer memory.old address (cells_in made)) }
{
    match made {
        Made::Nothing => 0,
        Made::Single(cell) => {
            put(memory, address, cell);
            1
        }
        Made::Pair(left, right) | Made::Singles(left, right) => {
            put(memory, address, left);
            put(memory, address.saturating_add(1), right);
            2
        }
    }
}

// Writes the cells that the characters of a text make, one after another, and says how many they are.
pub fn write_text<C: TerminalCell>(
    memory: &mut [C],
    from: usize,
    text: &[u32],
    attributes: u8,
) -> usize
    ensures count { result ≡ length (cells_of C.TerminalCell.glyph attributes text.now) }
    ensures after { memory.new ≡ by_address memory.old (written C.LayerCell.layer memory.old from (cells_of C.TerminalCell.glyph attributes text.now)) }
{
    let mut count = 0;
    for character in text {
        count += put_made(
            memory,
            from.saturating_add(count),
            C::make(*character, attributes),
        );
    }
    count
}
