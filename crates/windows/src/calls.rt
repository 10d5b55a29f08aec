// The calls on windows. Each that is given window memory refuses one of another length than recorded.
ghost use Rattle.std.specs.Prelude.{◌≡◌, ◌+◌, ◌-◌, ◌*◌, ◌<◌, ◌≤◌, true, false, [], ◌∷◌, ◌++◌, length, IfOk, MatchResult, nat_le, nat_lt};
ghost use Rattle.faults.specs.Refusals.{first, fault_of};
ghost use Rattle.faults.specs.declared.Fault.TheVariants.{CellCount};
ghost use Rattle.areas.specs.Addresses.{part_of, ends_below};
ghost use Rattle.areas.specs.Memories.{by_address};
ghost use Rattle.cell_memory.specs.Writing.{filled};
ghost use Rattle.windows.specs.Tables.{table_of, no_windows, area_of, with_window, with_part};
ghost use Rattle.windows.specs.Refusals.{is_side, make_refusal, no_window, part_refusal, share_refusal, area_refusal};

use crate::records::{MOST_CELLS, MOST_WINDOWS, Windows};
use crate::window_areas::WindowArea;
use areas::Area;
use cell_memory::fill;
use cells::kinds::LayerCell;
use faults::Fault;
use places::{Rectangle, Size, Spot};

// The longest side of a window.
const LONGEST_SIDE: usize = 255;

// What stands in the array where there is no window.
const NO_AREA: Area = Area {
    base: 0,
    pitch: 0,
    height: 0,
    width: 0,
};

// Can a window have such a side?
fn is_side(side: usize) -> bool
    ensures { result ≡ is_side side }
{
    (1..=LONGEST_SIDE).contains(&side)
}

impl Windows {
    // No windows over memory of so many cells.
    fn over(memory: usize) -> Windows
        requires { memory ≤ 65535 }
        ensures { table_of result ≡ no_windows memory }
    {
        Windows {
            areas: [NO_AREA; MOST_WINDOWS],
            count: 0,
            taken: 0,
            memory,
        }
    }

    // No windows over no memory.
    pub fn none() -> Windows
        ensures { table_of result ≡ no_windows 0 }
    {
        Windows::over(0)
    }

    // No windows over memory of so many cells, if it may have so many.
    pub fn new(memory: usize) -> Result<Windows, Fault>
        ensures refusal { fault_of result ≡ first ((nat_lt 65535 memory, CellCount) ∷ []) }
        ensures made { IfOk result (λ w. table_of w ≡ no_windows memory) }
    {
        if memory > MOST_CELLS {
            return Err(Fault::CellCount);
        }
        Ok(Windows::over(memory))
    }

    // The areas of the windows, in the order of their numbers.
    fn areas(&self) -> &[Area]
        ensures { result.now ≡ (table_of self.now).windows }
    {
        &self.areas[..self.count]
    }

    // One window more, and as many cells taken; its number.
    fn add(&mut self, new: Area, taken: usize) -> usize
        requires few { self.old.count < 16 }
        requires more { self.old.taken ≤ taken }
        requires enough { taken ≤ self.old.memory }
        requires inside { ends_below taken new ≡ true }
        ensures number { result ≡ length (table_of self.old).windows }
        ensures windows { (table_of self.new).windows ≡ (table_of self.old).windows ++ new ∷ [] }
        ensures taken { (table_of self.new).taken ≡ taken }
        ensures memory { (table_of self.new).memory ≡ (table_of self.old).memory }
    {
        let number = self.count;
        self.areas[number] = new;
        self.count = number + 1;
        self.taken = taken;
        number
    }

    // How many cells the window memory has.
    pub fn memory(&self) -> usize
        ensures { result ≡ (table_of self.now).memory }
    {
        self.memory
    }

    // Are there as many windows as there can be?
    fn is_full(&self) -> bool
        ensures told { result ≡ nat_le 16 (length (table_of self.now).windows) }
        ensures few { result ≡ false → self.now.count < 16 }
    {
        self.count >= MOST_WINDOWS
    }

    // The area of a window.
    fn find(&self, window: usize) -> Result<WindowArea, Fault>
        ensures refusal { fault_of result ≡ first (no_window (table_of self.now) window ∷ []) }
        ensures told { IfOk result (λ a. a.area ≡ area_of (table_of self.now) window) }
        ensures inside { IfOk result (λ a. ends_below self.now.taken a.area ≡ true) }
    {
        let Some(&area) = self.areas().get(window) else {
            return Err(Fault::NoWindow);
        };
        Ok(WindowArea { area })
    }

    // Takes cells after those taken, blanks them, and answers the new window's number.
    pub fn make<C: LayerCell>(&mut self, memory: &mut [C], size: Size) -> Result<usize, Fault>
        ensures refusal { fault_of result ≡ make_refusal (table_of self.old) (length memory.old) size }
        ensures made { MatchResult result (λ n. (n ≡ length (table_of self.old).windows) × (table_of self.new ≡ with_window (table_of self.old) size)) (λ _. self.new ≡ self.old) }
        ensures cells { MatchResult result (λ _. memory.new ≡ by_address memory.old (filled C.LayerCell.layer memory.old (table_of self.old).taken (size.rows * size.columns) C.LayerCell.layer.blank)) (λ _. memory.new ≡ memory.old) }
    {
        if memory.len() != self.memory {
            return Err(Fault::MemoryLength);
        }
        if !is_side(size.rows) || !is_side(size.columns) {
            return Err(Fault::BadSize);
        }
        if self.is_full() {
            return Err(Fault::TooManyWindows);
        }
        let taken = self.taken;
        let cells = size.rows * size.columns;
        if cells > self.memory - taken {
            return Err(Fault::CellCount);
        }
        fill(memory, taken, cells, C::blank());
        let new = Area {
            base: taken,
            pitch: size.columns,
            height: size.rows,
            width: size.columns,
        };
        Ok(self.add(new, taken + cells))
    }

    // A rectangle of a window, as an area.
    pub fn part(&self, window: usize, part: Rectangle) -> Result<Area, Fault>
        ensures refusal { fault_of result ≡ part_refusal (table_of self.now) window part }
        ensures told { IfOk result (λ a. a ≡ part_of (area_of (table_of self.now) window) part.top part.left part.height part.width) }
        ensures inside { IfOk result (λ a. (ends_below (table_of self.now).taken a ≡ true) × ((table_of self.now).taken ≤ 65535)) }
    {
        let whole = self.find(window)?;
        if part.height == 0 || part.width == 0 {
            return Err(Fault::BadSize);
        }
        if !part.lies_in(whole.size()) {
            return Err(Fault::Outside);
        }
        // where a part begins is asked for here alone
        let first = Spot {
            row: part.top,
            column: part.left,
        };
        Ok(Area {
            base: whole.address(first),
            height: part.height,
            width: part.width,
            ..whole.area
        })
    }

    // A window that shares a rectangle of a window's cells; its number.
    pub fn share(&mut self, window: usize, part: Rectangle) -> Result<usize, Fault>
        ensures refusal { fault_of result ≡ share_refusal (table_of self.old) window part }
        ensures made { MatchResult result (λ n. (n ≡ length (table_of self.old).windows) × (table_of self.new ≡ with_part (table_of self.old) window part)) (λ _. self.new ≡ self.old) }
    {
        let new = self.part(window, part)?;
        if self.is_full() {
            return Err(Fault::TooManyWindows);
        }
        Ok(self.add(new, self.taken))
    }

    // The area of a window over memory of so many cells, to be drawn into.
    pub(crate) fn find_over(&self, memory: usize, window: usize) -> Result<WindowArea, Fault>
        ensures refusal { fault_of result ≡ area_refusal (table_of self.now) memory window }
        ensures told { IfOk result (λ a. a.area ≡ area_of (table_of self.now) window) }
        ensures inside { IfOk result (λ a. (ends_below memory a.area ≡ true) × (memory ≤ 65535)) }
    {
        if memory != self.memory {
            return Err(Fault::MemoryLength);
        }
        self.find(window)
    }

    // The area of a window over memory of so many cells.
    pub fn area(&self, memory: usize, window: usize) -> Result<Area, Fault>
        ensures refusal { fault_of result ≡ area_refusal (table_of self.now) memory window }
        ensures told { IfOk result (λ a. a ≡ area_of (table_of self.now) window) }
        ensures inside { IfOk result (λ a. (ends_below memory a ≡ true) × (memory ≤ 65535)) }
    {
        let found = self.find_over(memory, window)?;
        Ok(found.area)
    }
}
