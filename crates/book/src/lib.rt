//! The state that a settlement meets: the roster of suppliers, the book of days, and the slips of opened days.
#![tactic(auto)]

mod checks;
mod opening;
mod ranges;
mod roster;
mod settling;
mod sheet;
mod slip;

pub use opening::Book;
pub use roster::{Entry, Roster};
pub use sheet::Accounted;
pub use slip::Slip;
