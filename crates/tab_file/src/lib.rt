//! Table files of additive pattern databases (Korf and Felner 2002): a header that names the pattern, and the entries behind it.
#![tactic(auto)]

mod counts;
mod entries;
mod headers;
mod kinds;
mod views;

pub use counts::{LANES, count_eq, greatest_count};
pub use entries::{GREATEST_COUNT, NO_REGION, NO_WAY_HOME};
pub use headers::{HEADER_LEN, HeadFault, MOST_BYTES, header_of};
pub use kinds::{GOAL_SLOT, OTHER_SLOT, WITHOUT_REGION};
pub use views::{TableView, view};
