//! Claims on solutions of boards, a claim a line, and the lines that answer them.
#![tactic(auto)]

mod answers;
mod bounds;
mod claims;
mod cuts;
mod faults;
pub mod laws;
mod letters;
mod numerals;
mod sides;
mod texts;
mod told_parts;
mod words;

pub use answers::{
    LINE_LEN, Line, MOST_SOLUTION, MOST_WHAT, bound_line, claim_line, joined_line, optimal_line,
    part_line, refused_line, shorter_line,
};
pub use claims::{Asks, Claim};
pub use faults::ClaimsFault;
pub use letters::MOST_MOVES;
pub use sides::first_of_another_side;
pub use texts::{MOST_LINES, is_remark, read_claims};
pub use told_parts::{RefusedPart, refused_part, told_index};
