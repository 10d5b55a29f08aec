// The calls on panels.
ghost use Rattle.std.specs.Prelude.{◌≡◌, ℕ, ◌<◌, List, true, not, ◌||◌, [], ◌∷◌, IfOk, Some, MatchResult, OnOk};
ghost use Rattle.std.specs.Fn.{FnOnceReturnsAtMut};
ghost use Rattle.faults.specs.Refusals.{first, fault_of};
ghost use Rattle.faults.specs.declared.Fault.TheVariants.{OffScreen};
ghost use Rattle.touching.specs.TouchedRows.{Touching};
ghost use Rattle.panels.specs.Places.{covers, is_small};
ghost use Rattle.panels.specs.Decks.{deck_of, panel_of, is_shown, with_order};
ghost use Rattle.panels.specs.declared.records.Panels.{Panels};
ghost use Rattle.screen.specs.States.{state_of};
ghost use Rattle.screen.specs.Refusals.{rectangle, fits_on, no_panel, panel_refusal, show_refusal, shown_refusal, relocate_refusal};
ghost use Rattle.screen.specs.PanelCalls.{given_panel, reordered, shown_panel, hidden_panel, raised_panel, lowered_panel, relocated_panel};

use crate::records::Screen;
use faults::Fault;
use orders::records::MOST_PANELS;
use panels::panel::Panel;
use panels::records::Panels;
use places::{Rectangle, Spot};
use touching::records::Touched;

// The rectangle of the screen where a panel lies: of a spot's numbers and of an area's, which have no type in common with it.
fn rectangle_of(panel: Panel) -> Rectangle
    ensures { result ≡ rectangle panel.at panel.view.height panel.view.width }
{
    Rectangle {
        top: panel.at.row,
        left: panel.at.column,
        height: panel.view.height,
        width: panel.view.width,
    }
}

// Touches the rectangle of a panel.
fn touch_panel(touched: &mut Touched, panel: Panel)
    ensures { Touching touched.old touched.new (covers (Some panel)) }
{
    touched.touch_rectangle(rectangle_of(panel));
}

// Touches the rectangles of two panels.
fn touch_both(touched: &mut Touched, one: Panel, other: Panel)
    ensures { Touching touched.old touched.new (λ r c. covers (Some one) r c || covers (Some other) r c) }
{
    touch_panel(touched, one);
    touch_panel(touched, other);
}

impl Screen {
    // Refuses a panel that does not lie wholly on the screen.
    fn check_fits(&self, panel: Panel) -> Result<(), Fault>
        ensures { fault_of result ≡ first ((not (fits_on (state_of self.now) (rectangle panel.at panel.view.height panel.view.width)), OffScreen) ∷ []) }
    {
        if !rectangle_of(panel).lies_in(self.board.touched.size()) {
            return Err(Fault::OffScreen);
        }
        Ok(())
    }

    // Gives a number a panel: a rectangle of a window, at a spot of the screen. It is hidden.
    pub fn panel(
        &mut self,
        number: usize,
        window: usize,
        view: Rectangle,
        at: Spot,
    ) -> Result<(), Fault>
        ensures refusal { fault_of result ≡ panel_refusal (state_of self.old) number window view at }
        ensures effect { MatchResult result (λ _. state_of self.new ≡ given_panel (state_of self.old) number window view at) (λ _. self.new ≡ self.old) }
    {
        if number >= MOST_PANELS {
            return Err(Fault::NoPanel);
        }
        if self.board.panels.is_shown(number) {
            return Err(Fault::PanelShown);
        }
        let view = self.board.windows.part(window, view)?;
        let panel = Panel { window, view, at };
        self.check_fits(panel)?;
        self.board.panels.give(number, panel);
        Ok(())
    }

    // The panel of a number.
    fn given(&self, number: usize) -> Result<Panel, Fault>
        ensures refusal { fault_of result ≡ first (no_panel (state_of self.now) number ∷ []) }
        ensures told { IfOk result (λ p. Some p ≡ panel_of (state_of self.now).deck number) }
        ensures number { OnOk result (number < 16) }
        ensures small { IfOk result (λ p. is_small (Some p) ≡ true) }
    {
        self.board.panels.panel(number).ok_or(Fault::NoPanel)
    }

    // The panel of a number that is shown.
    fn shown(&self, number: usize) -> Result<Panel, Fault>
        ensures refusal { fault_of result ≡ shown_refusal (state_of self.now) number }
        ensures told { IfOk result (λ p. Some p ≡ panel_of (state_of self.now).deck number) }
        ensures shown { OnOk result (is_shown (state_of self.now).deck number ≡ true) }
    {
        let panel = self.given(number)?;
        if !self.board.panels.is_shown(number) {
            return Err(Fault::PanelHidden);
        }
        Ok(panel)
    }

    // Puts a panel on top.
    pub fn show(&mut self, number: usize) -> Result<(), Fault>
        ensures refusal { fault_of result ≡ show_refusal (state_of self.old) number }
        ensures effect { MatchResult result (λ _. state_of self.new ≡ shown_panel (state_of self.old) number) (λ _. self.new ≡ self.old) }
    {
        let panel = self.given(number)?;
        if self.board.panels.is_shown(number) {
            return Err(Fault::PanelShown);
        }
        self.board.panels.show(number);
        touch_panel(&mut self.board.touched, panel);
        Ok(())
    }

    // Changes the order at a panel that is shown, and touches its rectangle.
    fn reorder<F: FnOnce(&mut Panels)>(&mut self, number: usize, change: F) -> Result<(), Fault>
        ghost order: { List ℕ }
        requires callable { F.IsAlwaysCallable change }
        requires changes { (new : Panels) → FnOnceReturnsAtMut F.FnOnce change self.old.board.panels tt new → deck_of new ≡ with_order (state_of self.old).deck order }
        ensures refusal { fault_of result ≡ shown_refusal (state_of self.old) number }
        ensures effect { MatchResult result (λ _. state_of self.new ≡ reordered (state_of self.old) number order) (λ _. self.new ≡ self.old) }
    {
        let panel = self.shown(number)?;
        change(&mut self.board.panels);
        touch_panel(&mut self.board.touched, panel);
        Ok(())
    }

    // Takes a shown panel out.
    pub fn hide(&mut self, number: usize) -> Result<(), Fault>
        ensures refusal { fault_of result ≡ shown_refusal (state_of self.old) number }
        ensures effect { MatchResult result (λ _. state_of self.new ≡ hidden_panel (state_of self.old) number) (λ _. self.new ≡ self.old) }
    {
        self.reorder(number, |panels| panels.hide(number))
    }

    // Brings a shown panel to the top.
    pub fn raise(&mut self, number: usize) -> Result<(), Fault>
        ensures refusal { fault_of result ≡ shown_refusal (state_of self.old) number }
        ensures effect { MatchResult result (λ _. state_of self.new ≡ raised_panel (state_of self.old) number) (λ _. self.new ≡ self.old) }
    {
        self.reorder(number, |panels| panels.raise(number))
    }

    // Brings a shown panel to the bottom.
    pub fn lower(&mut self, number: usize) -> Result<(), Fault>
        ensures refusal { fault_of result ≡ shown_refusal (state_of self.old) number }
        ensures effect { MatchResult result (λ _. state_of self.new ≡ lowered_panel (state_of self.old) number) (λ _. self.new ≡ self.old) }
    {
        self.reorder(number, |panels| panels.lower(number))
    }

    // Gives a panel another place.
    pub fn relocate(&mut self, number: usize, to: Spot) -> Result<(), Fault>
        ensures refusal { fault_of result ≡ relocate_refusal (state_of self.old) number to }
        ensures effect { MatchResult result (λ _. state_of self.new ≡ relocated_panel (state_of self.old) number to) (λ _. self.new ≡ self.old) }
    {
        let panel = self.given(number)?;
        let moved = Panel { at: to, ..panel };
        self.check_fits(moved)?;
        self.board.panels.give(number, moved);
        if self.board.panels.is_shown(number) {
            touch_both(&mut self.board.touched, panel, moved);
        }
        Ok(())
    }
}
