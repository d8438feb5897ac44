//! How far a check or a maker has come, and how fast a search goes, told on standard error while they run.
#![tactic(auto)]

mod files;
mod gates;
mod makings;
mod names;
mod paces;
mod shares;
mod times;

pub use files::checked_files;
pub use gates::{Progress, Watch, is_asked_for};
pub use names::ShownName;
pub use paces::Pace;
pub use shares::Share;
pub use times::is_time;
