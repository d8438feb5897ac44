//! Laws of logs. Each function here says what holds of all of them, and does nothing.

ghost use Rattle.log_check.specs.Laws.{LogFilesHaveAnAnswer, FilesHaveOneBound, LogFilesHaveOneFault, GoodFilesHaveNoFault, GoodLemmasBound, GoodLogsBound, LemmasAreGoodOrNot};

/// Where each lemma of a log is good, no solution of a lemma's board has fewer moves than the lemma's bound.
pub fn good_lemmas_bound()
    ensures { GoodLemmasBound }
{}

/// No solution of the board of a good log has fewer moves than its bound.
pub fn good_logs_bound()
    ensures { GoodLogsBound }
{}

/// A lemma is good or it isn't: its bytes spell a tree that refutes shorter solutions of its board, or they don't.
pub fn lemmas_are_good_or_not()
    ensures { LemmasAreGoodOrNot }
{}

/// For a bundle and a board a file is that of a good log or has a fault, and of these one alone: they settle all but want
/// of memory.
pub fn files_have_one_answer()
    ensures some { LogFilesHaveAnAnswer }
    ensures bound { FilesHaveOneBound }
    ensures fault { LogFilesHaveOneFault }
    ensures either { GoodFilesHaveNoFault }
{}
