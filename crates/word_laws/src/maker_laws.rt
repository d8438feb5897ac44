//! What holds of all words of the makers. Each function here says it, and does nothing.

ghost use Rattle.std.specs.Prelude.{◌≡◌, ◌∷◌, ◌++◌, [], ℕ, Bool, List, Some, codes, false, true};
ghost use Rattle.pdb_words.specs.Budget.{usual_budget};
ghost use Rattle.pdb_words.specs.Commands.{IsPlain};
ghost use Rattle.pdb_words.specs.Faults.{IsMistaken};
ghost use Rattle.pdb_words.specs.Masks.{mask_of_tiles, mask_written};
ghost use Rattle.pdb_words.specs.Numbers.{number_of};
ghost use Rattle.word_laws.specs.Asking.{AsksFor};
ghost use Rattle.word_laws.specs.LogWords.{LogNames, NamesLog, log_words, of_names, search_within, with_fold};
ghost use Rattle.word_laws.specs.MakeTableWords.{PatternWords, WritesPattern, asks_for_table, pattern_words};
ghost use Rattle.word_laws.specs.MaskWords.{AreTiles, tiles_word};
ghost use Rattle.word_laws.specs.NumberTexts.{writes_budget, writes_mask, writes_side, writes_workers};

/// `make-table` with a side, a tile mask and a name asks for the table of that pattern under that name: a side from 0
/// to 255, a mask in any of its forms, and one worker, or as many as `--workers` says, first or last.
pub fn what_make_table_asks()
    ensures numbers { (words : PatternWords) → WritesPattern words
        → AsksFor (codes "make-table" ∷ pattern_words words) (asks_for_table words 1) }
    ensures other_side { (words : PatternWords) → writes_side words.side ≡ false
        → IsMistaken (codes "make-table" ∷ pattern_words words) }
    ensures other_mask { (words : PatternWords) → writes_mask words.mask ≡ false
        → IsMistaken (codes "make-table" ∷ pattern_words words) }
    ensures no_name { (side mask : List ℕ) → IsPlain side → IsPlain mask
        → IsMistaken (codes "make-table" ∷ side ∷ mask ∷ []) }
    ensures workers { (words : PatternWords) (number : List ℕ)
        → IsPlain number → writes_workers number ≡ true → WritesPattern words
        → AsksFor (codes "make-table" ∷ codes "--workers" ∷ number ∷ pattern_words words)
        (asks_for_table words (number_of number)) }
    ensures other_workers { (words : PatternWords) (number : List ℕ)
        → IsPlain number → writes_workers number ≡ false
        → IsMistaken (codes "make-table" ∷ codes "--workers" ∷ number ∷ pattern_words words) }
    ensures workers_last { (words : PatternWords) (number : List ℕ)
        → IsPlain number → writes_workers number ≡ true → WritesPattern words
        → AsksFor (codes "make-table" ∷ pattern_words words ++ codes "--workers" ∷ number ∷ [])
        (asks_for_table words (number_of number)) }
    ensures other_workers_last { (words : PatternWords) (number : List ℕ)
        → IsPlain number → writes_workers number ≡ false
        → IsMistaken (codes "make-table" ∷ pattern_words words ++ codes "--workers" ∷ number ∷ []) }
{}

/// `tiles:` and numbers of tiles with commas between them write the sum of 2^t over these, in any order.
#[tactic(auto, using(crate::proofs::MaskWordLemmas::mask_back))]
pub fn what_tiles_write()
    ensures { (tiles : List ℕ) → AreTiles tiles
        → mask_written (tiles_word tiles) ≡ Some (mask_of_tiles tiles) }
{}

/// `solve` with the names of a board, the sets, what is to hold the log and one table or more asks for a shortest
/// solution of the board: the tables in their order, one worker, or as many as `--workers` says, and 1,000,000 boards,
/// or as many as `--budget` says, first or last; and with folded tables where `--fold` comes before all or behind all.
pub fn what_solve_asks()
    ensures workers { NamesLog (codes "solve") (search_within usual_budget) }
    ensures budget { (names : LogNames) (folds : Bool) (number : List ℕ)
        → IsPlain number → writes_budget number ≡ true
        → AsksFor (codes "solve" ∷ with_fold folds
        (codes "--budget" ∷ number ∷ log_words names))
        (of_names (search_within (number_of number)) names 1 folds) }
    ensures other_budget { (names : LogNames) (folds : Bool) (number : List ℕ)
        → IsPlain number → writes_budget number ≡ false
        → IsMistaken (codes "solve" ∷ with_fold folds
        (codes "--budget" ∷ number ∷ log_words names)) }
    ensures both { (names : LogNames) (folds : Bool) (number budget : List ℕ)
        → IsPlain number → IsPlain budget
        → writes_workers number ≡ true → writes_budget budget ≡ true
        → AsksFor (codes "solve" ∷ with_fold folds
        (codes "--workers" ∷ number ∷ codes "--budget" ∷ budget ∷ log_words names))
        (of_names (search_within (number_of budget)) names (number_of number) folds) }
    ensures budget_last { (names : LogNames) (folds : Bool) (number : List ℕ)
        → IsPlain number → writes_budget number ≡ true
        → AsksFor (codes "solve" ∷ with_fold folds
        (log_words names ++ codes "--budget" ∷ number ∷ []))
        (of_names (search_within (number_of number)) names 1 folds) }
    ensures other_budget_last { (names : LogNames) (folds : Bool) (number : List ℕ)
        → IsPlain number → writes_budget number ≡ false
        → IsMistaken (codes "solve" ∷ with_fold folds
        (log_words names ++ codes "--budget" ∷ number ∷ [])) }
{}
