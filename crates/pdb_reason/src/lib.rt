//! Why a run ended without a yes, in a sentence for people.
#![tactic(auto)]

mod beginnings;
mod besides;
mod mistakes;
mod outs;
mod reasons;
mod texts;

pub use beginnings::Beginning;
pub use besides::{SolvableLast, Summary};
pub use reasons::Reason;
