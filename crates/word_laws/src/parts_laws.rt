//! What holds of all words of `parts`. The function here says it, and does nothing.

ghost use Rattle.std.specs.Prelude.{◌≡◌, ◌∷◌, ◌%◌, [], List, codes, false, true, ℕ};
ghost use Rattle.pdb_words.specs.Commands.{IsPlain};
ghost use Rattle.pdb_words.specs.Faults.{IsMistaken};
ghost use Rattle.pdb_words.specs.Numbers.{number_of};
ghost use Rattle.word_laws.specs.Asking.{AsksFor, TextFrom, text_word};
ghost use Rattle.word_laws.specs.NumberTexts.{writes_bound, writes_count};
ghost use Rattle.word_laws.specs.PartsWords.{PartsWords, WritesParts, asks_for_parts, parts_words};

/// `parts` with the name of a board text, or `-` for standard input, with a bound from 0 to 255, an odd count of parts up to
/// 65,535 and the names of one file of answers or more asks to join these: the files in their order. It takes no `--workers`.
pub fn what_parts_asks()
    ensures files { (words : PartsWords) → WritesParts words
        → AsksFor (codes "parts" ∷ parts_words words) (asks_for_parts words) }
    ensures other_bound { (words : PartsWords) → writes_bound words.bound ≡ false
        → IsMistaken (codes "parts" ∷ parts_words words) }
    ensures other_count { (words : PartsWords) → writes_count words.count ≡ false
        → IsMistaken (codes "parts" ∷ parts_words words) }
    ensures even_count { (words : PartsWords)
        → writes_count words.count ≡ true → number_of words.count % 2 ≡ 0
        → IsMistaken (codes "parts" ∷ parts_words words) }
    ensures no_answers { (board : TextFrom) (bound count : List ℕ)
        → IsPlain bound → IsPlain count → writes_bound bound ≡ true → writes_count count ≡ true
        → IsMistaken (codes "parts" ∷ text_word board ∷ bound ∷ count ∷ []) }
    ensures workers { (number : List ℕ)
        → IsMistaken (codes "parts" ∷ codes "--workers" ∷ number ∷ []) }
{}
