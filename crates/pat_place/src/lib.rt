//! Patterns of the sliding-tile puzzle, placements of their tiles, ranks, and the regions of free cells.
#![tactic(auto)]

pub mod board_laws;
mod flood;
pub mod laws;
mod mask_numbers;
mod patterns;
mod placements;
mod ranks;
mod set_numbers;
mod slot_tables;
mod slots;

pub use flood::region_of;
pub use mask_numbers::put_numbers;
pub use patterns::Pattern;
pub use placements::Placement;
pub use ranks::{Standing, next, rank, rank_among, standing_of, unrank};
pub use set_numbers::SetNumbers;
pub use slot_tables::{SlotTable, next_of_size};
pub use slots::{find_region, free_cells, regions, slot_of};
