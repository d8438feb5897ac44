//! What holds of all words of `prove`. The function here says it, and does nothing.

ghost use Rattle.std.specs.Prelude.{◌≡◌, ◌∷◌, ◌++◌, [], None, Some, Bool, List, codes, false, true, ℕ};
ghost use Rattle.pdb_words.specs.Commands.{IsPlain};
ghost use Rattle.pdb_words.specs.Faults.{IsMistaken};
ghost use Rattle.pdb_words.specs.Numbers.{number_of};
ghost use Rattle.word_laws.specs.Asking.{AsksFor, TextFrom, text_word};
ghost use Rattle.word_laws.specs.LogWords.{with_fold};
ghost use Rattle.word_laws.specs.NumberTexts.{writes_budget, writes_workers};
ghost use Rattle.word_laws.specs.ProveWords.{ProveNames, asks_for_goal, asks_for_proofs, prove_words};
ghost use Rattle.puz_goal.specs.declared.goals.Goal.TheVariants.{Last};

/// `prove` with the name of the claims, or `-` for standard input, with the sets and one table or more asks for an
/// answer to each claim: the tables in their order, one worker, or as many as `--workers` says, and as many boards as it
/// takes, or as many as `--budget` says, first or last; with folded tables where `--fold` comes before all or behind all;
/// and with the blank last where `--goal last` comes before the names.
pub fn what_prove_asks()
    ensures files { (names : ProveNames) (folds : Bool)
        → AsksFor (codes "prove" ∷ with_fold folds (prove_words names))
        (asks_for_proofs names 1 folds None) }
    ensures no_tables { (claims : TextFrom) (sets : List ℕ) (folds : Bool) → IsPlain sets
        → IsMistaken (codes "prove" ∷ with_fold folds (text_word claims ∷ sets ∷ [])) }
    ensures workers { (names : ProveNames) (folds : Bool) (number : List ℕ)
        → IsPlain number → writes_workers number ≡ true
        → AsksFor (codes "prove" ∷ with_fold folds
        (codes "--workers" ∷ number ∷ prove_words names))
        (asks_for_proofs names (number_of number) folds None) }
    ensures other_workers { (names : ProveNames) (folds : Bool) (number : List ℕ)
        → IsPlain number → writes_workers number ≡ false
        → IsMistaken (codes "prove" ∷ with_fold folds
        (codes "--workers" ∷ number ∷ prove_words names)) }
    ensures workers_last { (names : ProveNames) (folds : Bool) (number : List ℕ)
        → IsPlain number → writes_workers number ≡ true
        → AsksFor (codes "prove" ∷ with_fold folds
        (prove_words names ++ codes "--workers" ∷ number ∷ []))
        (asks_for_proofs names (number_of number) folds None) }
    ensures other_workers_last { (names : ProveNames) (folds : Bool) (number : List ℕ)
        → IsPlain number → writes_workers number ≡ false
        → IsMistaken (codes "prove" ∷ with_fold folds
        (prove_words names ++ codes "--workers" ∷ number ∷ [])) }
    ensures fold_last { (names : ProveNames)
        → AsksFor (codes "prove" ∷ prove_words names ++ codes "--fold" ∷ [])
        (asks_for_proofs names 1 true None) }
    ensures fold_twice { (words : List (List ℕ))
        → IsMistaken (codes "prove" ∷ codes "--fold" ∷ codes "--fold" ∷ words) }
    ensures goal_last { (names : ProveNames) (folds : Bool)
        → AsksFor (codes "prove" ∷ with_fold folds
        (codes "--goal" ∷ codes "last" ∷ prove_words names))
        (asks_for_goal Last names 1 folds None) }
    ensures budget { (names : ProveNames) (folds : Bool) (number : List ℕ)
        → IsPlain number → writes_budget number ≡ true
        → AsksFor (codes "prove" ∷ with_fold folds
        (codes "--budget" ∷ number ∷ prove_words names))
        (asks_for_proofs names 1 folds (Some (number_of number))) }
    ensures other_budget { (names : ProveNames) (folds : Bool) (number : List ℕ)
        → IsPlain number → writes_budget number ≡ false
        → IsMistaken (codes "prove" ∷ with_fold folds
        (codes "--budget" ∷ number ∷ prove_words names)) }
    ensures both { (names : ProveNames) (folds : Bool) (number budget : List ℕ)
        → IsPlain number → IsPlain budget
        → writes_workers number ≡ true → writes_budget budget ≡ true
        → AsksFor (codes "prove" ∷ with_fold folds
        (codes "--workers" ∷ number ∷ codes "--budget" ∷ budget ∷ prove_words names))
        (asks_for_proofs names (number_of number) folds (Some (number_of budget))) }
    ensures budget_last { (names : ProveNames) (folds : Bool) (number : List ℕ)
        → IsPlain number → writes_budget number ≡ true
        → AsksFor (codes "prove" ∷ with_fold folds
        (prove_words names ++ codes "--budget" ∷ number ∷ []))
        (asks_for_proofs names 1 folds (Some (number_of number))) }
    ensures other_budget_last { (names : ProveNames) (folds : Bool) (number : List ℕ)
        → IsPlain number → writes_budget number ≡ false
        → IsMistaken (codes "prove" ∷ with_fold folds
        (prove_words names ++ codes "--budget" ∷ number ∷ [])) }
{}
