//! Laws of log files. Each function here says what holds of all of them, and does nothing.

ghost use Rattle.log_file.specs.Laws.{LogFormsHaveAnAnswer, LogFormsHaveOneFault, FilesHaveOneLog, LogFilesHaveNoFault};

/// A file is that of a log or has a fault, and of these one alone: its bytes settle all but want of memory.
pub fn files_have_one_answer()
    ensures some { LogFormsHaveAnAnswer }
    ensures log { FilesHaveOneLog }
    ensures fault { LogFormsHaveOneFault }
    ensures either { LogFilesHaveNoFault }
{}
