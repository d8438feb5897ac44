//! What holds of all words. Each function here says it, and does nothing.

ghost use Rattle.std.specs.Prelude.{◌≡◌, ◌≢◌, ◌∷◌, ◌++◌, [], ℕ, List, None, Some, codes, false, true};
ghost use Rattle.std.specs.List.{All};
ghost use Rattle.pdb_request.specs.Asked.{bound, optimal, replay, table};
ghost use Rattle.puz_goal.specs.declared.goals.Goal.TheVariants.{First, Last};
ghost use Rattle.pdb_words.specs.CommandLine.{Parses};
ghost use Rattle.pdb_words.specs.Commands.{BeginsWithCommand, IsCommand, IsPlain};
ghost use Rattle.pdb_words.specs.Faults.{IsMistaken};
ghost use Rattle.pdb_words.specs.Goal.{goal_written};
ghost use Rattle.pdb_words.specs.Numbers.{number_of};
ghost use Rattle.pdb_words.specs.Replay.{replay_input};
ghost use Rattle.word_laws.specs.Asking.{AsksFor};
ghost use Rattle.word_laws.specs.Flags.{IsLongFlag, TakesFlag};
ghost use Rattle.word_laws.specs.LogWords.{NamesLog};
ghost use Rattle.word_laws.specs.NumberTexts.{writes_workers};

/// No words, and `replay` alone, ask for standard input, and `replay` with a name for that file; with `--goal last` before the name
/// the blank is last at home.
pub fn what_replay_asks()
    ensures nothing { AsksFor [] replay_input }
    ensures alone { AsksFor (codes "replay" ∷ []) replay_input }
    ensures file { (name : List ℕ) → IsPlain name
        → AsksFor (codes "replay" ∷ name ∷ []) (replay (record { puzzle = Some name; goal = First })) }
    ensures goal { (name : List ℕ) → IsPlain name
        → AsksFor (codes "replay" ∷ codes "--goal" ∷ codes "last" ∷ name ∷ [])
        (replay (record { puzzle = Some name; goal = Last })) }
    ensures other_goal { (goal : List ℕ) → IsPlain goal → goal_written goal ≡ None
        → IsMistaken (codes "replay" ∷ codes "--goal" ∷ goal ∷ []) }
    ensures workers { (number : List ℕ)
        → IsMistaken (codes "replay" ∷ codes "--workers" ∷ number ∷ []) }
{}

/// `table` with a name asks for that table, checked by one worker, or by as many as `--workers` says, before the name
/// or behind it.
pub fn what_table_asks()
    ensures file { (name : List ℕ) → IsPlain name
        → AsksFor (codes "table" ∷ name ∷ []) (table (record { file = name; workers = 1 })) }
    ensures alone { IsMistaken (codes "table" ∷ []) }
    ensures workers { (number name : List ℕ) → IsPlain number → IsPlain name
        → writes_workers number ≡ true
        → AsksFor (codes "table" ∷ codes "--workers" ∷ number ∷ name ∷ [])
        (table (record { file = name; workers = number_of number })) }
    ensures other_workers { (number name : List ℕ) → IsPlain number → IsPlain name
        → writes_workers number ≡ false
        → IsMistaken (codes "table" ∷ codes "--workers" ∷ number ∷ name ∷ []) }
    ensures workers_last { (number name : List ℕ) → IsPlain number → IsPlain name
        → writes_workers number ≡ true
        → AsksFor (codes "table" ∷ name ∷ codes "--workers" ∷ number ∷ [])
        (table (record { file = name; workers = number_of number })) }
    ensures other_workers_last { (number name : List ℕ) → IsPlain number → IsPlain name
        → writes_workers number ≡ false
        → IsMistaken (codes "table" ∷ name ∷ codes "--workers" ∷ number ∷ []) }
{}

/// `bound` with the names of a board, the sets, a log and one table or more asks whether the log proves its bound of
/// the board: the tables in their order, checked by one worker, or by as many as `--workers` says, first or last, and
/// folded then where `--fold` comes before all or behind all.
#[tactic(auto, using(crate::proofs::LogLemmas::board_names))]
pub fn what_bound_asks()
    ensures { NamesLog (codes "bound") bound }
{}

/// `optimal` asks in the same words, with a puzzle text first, whether the log proves that its moves are a shortest
/// solution.
#[tactic(auto, using(crate::proofs::LogLemmas::puzzle_names))]
pub fn what_optimal_asks()
    ensures { NamesLog (codes "optimal") optimal }
{}

/// Words that parse begin with a command of the program, and give no flag but those that their command takes:
/// `--workers`, which `replay` doesn't take, behind `bound`, `optimal`, `solve` and `prove` `--fold`, behind these and
/// `replay` and `parts` `--goal`, and behind `solve` and `prove` `--budget`.
#[tactic(auto, using(pdb_words::proofs::CommandLemmas::begins_with_command, pdb_words::proofs::CommandLemmas::other_command))]
pub fn no_other_words_parse()
    ensures commands { (words : List (List ℕ)) → Parses words → BeginsWithCommand words }
    // Another first word, other than a wish for help, is a mistake, whatever follows.
    ensures other_command { (first : List ℕ) (rest : List (List ℕ)) → IsPlain first
        → (IsCommand first → ⊥) → first ≢ codes "help" → IsMistaken (first ∷ rest) }
    // Behind a word `--` no word is a flag.
    ensures flags { (command name flag : List ℕ) (before after : List (List ℕ))
        → IsCommand command → All (λ word. word ≢ codes "--") before → IsLongFlag name flag
        → Parses (command ∷ before ++ flag ∷ after) → TakesFlag command name }
{}
