//! What holds of a book after every list of events, and of its passes where they are shared out.

ghost use Rattle.std.specs.Prelude.{◌≡◌, ◌≢◌, ℕ, List, [], ◌∷◌, ◌++◌, length, map, Some, true, slice_get, slice_set};
ghost use Rattle.book_core.specs.declared.events.Event.{Event};
ghost use Rattle.book_core.specs.Passes.{Deeds};
ghost use Rattle.book_core.specs.Books.{Book, start};
ghost use Rattle.book_core.specs.Runs.{run_after};
ghost use Rattle.book_core.specs.Laws.{BookLaw, IsAllDrawn};
ghost use Rattle.book_core.specs.Shares.{NumberedPass, numbered_pass, IsDealt, all_fresh, first, others, IsCounted};

/// The law of a book, after every list of events from its start.
pub fn book_law()
    ensures law { (jobs workers : ℕ) (events : List Event) →
        BookLaw (run_after jobs workers events).book }
    // Once any pass has ended, each job was drawn.
    ensures all_drawn { (jobs workers : ℕ) (events : List Event) (w : ℕ) (p : Deeds) →
        slice_get (run_after jobs workers events).book.passes w ≡ Some p → p.ended ≡ true →
        IsAllDrawn (run_after jobs workers events).book }
    // The jobs and the passes stay as many as they were.
    ensures sizes { (jobs workers : ℕ) (events : List Event) →
        ((run_after jobs workers events).book.jobs ≡ jobs)
        × (length (run_after jobs workers events).book.passes ≡ workers) }
{}

/// The passes of a book stay shared out, each in one share, where one of them takes a step,
/// where a share is cut, and where two are put together.
pub fn share_law()
    ensures start { (jobs workers : ℕ) → IsDealt (start jobs workers) (all_fresh 0 workers ∷ []) }
    ensures step { (b c : Book) (shares : List (List NumberedPass)) (i w : ℕ) (p q : Deeds) →
        IsDealt b shares → slice_get shares i ≡ Some (numbered_pass w p ∷ []) →
        c.passes ≡ slice_set b.passes w q →
        IsDealt c (slice_set shares i (numbered_pass w q ∷ [])) }
    ensures cut { (b : Book) (shares : List (List NumberedPass)) →
        (i : ℕ) (share : List NumberedPass) → IsDealt b shares →
        slice_get shares i ≡ Some share →
        IsDealt b (slice_set shares i (others share) ++ first share ∷ []) }
    ensures join { (b : Book) (shares : List (List NumberedPass)) →
        (i j : ℕ) (one other : List NumberedPass) → IsDealt b shares → j ≢ i →
        slice_get shares i ≡ Some one → slice_get shares j ≡ Some other →
        IsDealt b (slice_set (slice_set shares i (one ++ other)) j []) }
    // A share of all passes, in the order of their numbers, is what the book has.
    ensures whole { (b : Book) (shares : List (List NumberedPass)) →
        (i : ℕ) (share : List NumberedPass) → IsDealt b shares →
        slice_get shares i ≡ Some share → length share ≡ length b.passes → IsCounted 0 share →
        b.passes ≡ map (λ h. h.deeds) share }
{}
