//! What leads a search.

ghost use Rattle.std.specs.Prelude.{◌≡◌, ◌≢◌, IfSome, MatchOption};
ghost use Rattle.move_strings.specs.Automata.{IsState, left_out, next_at};
ghost use Rattle.set_sum.specs.Bundles.{IsBundle};
ghost use Rattle.puz_search.specs.Guides.{IsGuide, automaton_of};
ghost use Rattle.puz_search.specs.StoredGuides.{bundle_of};

use move_strings::Automaton;
use puz_board::{Move, Side};
use puz_walk::WordBundle;
use set_sum::Bundle;
use std::marker::Model;

/// The sets that cut boards off.
#[derive(Clone, Copy)]
pub enum Sets<'a> {
    /// They are asked for their sums.
    Sums(&'a Bundle<'a>),
    /// What moves do to their sums is read from edge words.
    Words(&'a WordBundle<'a>),
}

impl Sets<'_> {
    /// The side of the boards.
    pub fn side(self) -> Side
        ensures side { result ≡ (bundle_of self.entry).side }
        ensures bundle { IsBundle (bundle_of self.entry) }
    {
        match self {
            Sets::Sums(bundle) => bundle.side(),
            Sets::Words(words) => words.side(),
        }
    }
}

/// What leads a search: the sets of a bundle cut boards off (Korf and Felner 2002), and an automaton leaves out moves that need
/// not be tried (Taylor and Korf 1993).
#[derive(Drop)]
pub struct Guide<'a> {
    sets: Sets<'a>,
    automaton: &'a Automaton,
}

impl<'a> Model for Guide<'a> {
    ghost use Rattle.std.specs.Prelude.{◌≡◌};
    ghost use Rattle.puz_search.specs.Guides.{ShownGuide};
    ghost use Rattle.puz_search.specs.StoredGuides.{bundle_of};

    ghost Value = { ShownGuide };

    ghost view = { λ g. record { bundle = bundle_of g.sets; steps = g.automaton.now.steps } };

    ghost invariant = { λ g. g.automaton.now.side ≡ (bundle_of g.sets).side };
}

impl<'a> Guide<'a> {
    /// The guide of a bundle and an automaton for boards of its side.
    pub fn new(bundle: &'a Bundle<'a>, automaton: &'a Automaton) -> Guide<'a>
        requires { automaton.now.side ≡ bundle.now.side }
        ensures value { result ≡ record { bundle = bundle.now; steps = automaton.now.steps } }
        ensures guide { IsGuide result }
    {
        Guide::over(Sets::Sums(bundle), automaton)
    }

    /// The guide of a bundle with edge words, which are read where the sets would be asked for their sums, and an automaton for
    /// boards of its side.
    pub fn over_words(words: &'a WordBundle<'a>, automaton: &'a Automaton) -> Guide<'a>
        requires { automaton.now.side ≡ words.now.side }
        ensures value { result ≡ record { bundle = words.now; steps = automaton.now.steps } }
        ensures guide { IsGuide result }
    {
        Guide::over(Sets::Words(words), automaton)
    }

    /// The guide of sets and an automaton for boards of their side.
    pub fn over(sets: Sets<'a>, automaton: &'a Automaton) -> Guide<'a>
        requires { automaton.now.side ≡ (bundle_of sets).side }
        ensures value { result
            ≡ record { bundle = bundle_of sets.entry; steps = automaton.now.steps } }
        ensures guide { IsGuide result }
    {
        // Asked only for what its contract says.
        let _sides = (sets.side(), automaton.side());
        Guide { sets, automaton }
    }

    /// The side of the boards that it leads to.
    pub fn side(&self) -> Side
        ensures side { result ≡ self.now.bundle.side }
        ensures guide { IsGuide self.now }
    {
        let _automaton = self.automaton.side();
        self.sets.side()
    }

    /// The state of the automaton after a move from a state, unless the step is left out.
    pub(crate) fn next(&self, state: u32, mv: Move) -> Option<u32>
        requires { IsState self.now.steps state }
        ensures next { MatchOption result
            (next_at self.now.steps state mv ≡ left_out)
            (λ next. (next_at self.now.steps state mv ≡ next) × (next ≢ left_out)) }
        ensures state { IfSome result (IsState self.now.steps) }
    {
        self.automaton.next(state, mv)
    }

    /// The automaton.
    pub(crate) fn automaton(&self) -> &'a Automaton
        ensures { result.now ≡ automaton_of self.now }
    {
        self.automaton
    }

    /// The sets that cut boards off.
    pub(crate) fn sets(&self) -> Sets<'a>
        ensures { bundle_of result ≡ self.now.bundle }
    {
        self.sets
    }
}
