//! A run of any command: its inputs, its answer, and what it says of them.
#![tactic(auto)]

mod answers;
mod commands;
mod digests;
mod ends;
mod inputs;
mod io;
mod mistakes;
mod pages;
mod runs;
mod statuses;
mod writing;

pub use answers::{AnswerLines, Answered, CommandAnswer, Digested, LINES_LEN, Unanswered, lines};
pub use commands::{Command, Input};
pub use digests::{
    DIGEST_LEN, DIGESTS_LEN, Digests, FILES_BESIDE, beside, digested_beside, with_digest,
};
pub use ends::{Beside, Cause, Ended, Spot, Tally};
pub use inputs::{Unread, load_all};
pub use io::{BorrowedIo, Io};
pub use mistakes::Mistake;
pub use runs::{
    Keeping, NO_MEMORY, Sparing, conclude, keep_and_conclude, read_inputs, read_inputs_and_try,
    say_no_memory, say_text, say_unread,
};
pub use statuses::Status;
pub use writing::{say, say_digests};
