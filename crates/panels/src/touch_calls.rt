// Touching the spots that show what was written.
ghost use Rattle.std.specs.Prelude.{◌≡◌};
ghost use Rattle.areas.specs.Addresses.{in_span, in_area};
ghost use Rattle.touching.specs.TouchedRows.{Touching};
ghost use Rattle.panels.specs.Decks.{deck_of, hit};

use crate::records::Panels;
use areas::Area;
use touching::records::Touched;

impl Panels {
    // Touches what the shown panels show of the addresses.
    fn touch_span(&self, touched: &mut Touched, from: usize, count: usize)
        ensures { Touching touched.old touched.new (hit (deck_of self.now) (in_span from count)) }
    {
        for number in self.order.numbers() {
            if let Some(panel) = self.small(*number) {
                panel.touch(touched, from, count);
            }
        }
    }

    // Touches each spot at which a shown panel shows a cell of an area.
    pub fn touch_area(&self, touched: &mut Touched, area: Area)
        ensures { Touching touched.old touched.new (hit (deck_of self.now) (in_area area)) }
    {
        // a row is where its number puts it in memory
        for row in 0..area.height {
            let start = area.base.saturating_add(row.saturating_mul(area.pitch));
            self.touch_span(touched, start, area.width);
        }
    }
}
