//! What the words and the views of a book show between any two steps, and what each kind of step makes of it.

ghost use Rattle.std.specs.Prelude.{◌≡◌, ◌≢◌, ℕ};
ghost use mathlib.Core.Option.{some};
ghost use lib.ListN.{get_elem?};
ghost use Rattle.atomic_table.specs.Table.{State};
ghost use Rattle.book_core.specs.declared.events.Event.{Event};
ghost use Rattle.book_core.specs.Passes.{Deeds};
ghost use Rattle.book_core.specs.Books.{Book as Machine, start};
ghost use Rattle.book_core.specs.Steps.{pass_of};
ghost use Rattle.book_core.specs.Laws.{BookLaw};
ghost use Rattle.book_live.specs.declared.views.Sizes.{Sizes};
ghost use Rattle.book_live.specs.declared.views.View.{View};
ghost use Rattle.book_live.specs.Views.{alone};
ghost use Rattle.book_live.specs.Shown.{IsInLimits, IsReachedBook, Shows, Shown};
ghost use Rattle.book_live.specs.Steps.{MayTake, ShowsEvent, opened, made, taken_in};

/// The rule of a book's words and views: they show a book that meets the law of the machine.
/// A claim, a report and a look each move it by their one event, with the answer that the word says.
/// Making a seat and joining two change no word, and the same book stays shown.
pub fn shown_law()
    ensures law { (z : Sizes) (s : State (Unit {0}) View) → Shown z s →
        (b : Machine) × IsReachedBook z b × BookLaw b × Shows z b s }
    ensures opening { (z : Sizes) → IsInLimits z →
        Shows {S = Unit {0}} z (start z.jobs z.workers) (opened z) }
    ensures event { (z : Sizes) (b : Machine) (s : State (Unit {0}) View) →
        IsReachedBook z b → Shows z b s → (seat : ℕ) (e : Event) (p : Deeds) →
        get_elem? s.views seat ≡ some (alone z (pass_of e) p) → MayTake p e →
        ShowsEvent z b s seat e p }
    ensures make { (z : Sizes) (b : Machine) (s : State (Unit {0}) View) → Shows z b s →
        (seat : ℕ) (v : View) → get_elem? s.views seat ≡ some v → Shows z b (made s seat v) }
    ensures join { (z : Sizes) (b : Machine) (s : State (Unit {0}) View) → Shows z b s →
        (seat other : ℕ) (v u : View) → get_elem? s.views seat ≡ some v → other ≢ seat →
        get_elem? s.views other ≡ some u →
        Shows z b (taken_in s seat v other u) }
{}
