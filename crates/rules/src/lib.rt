//! The arithmetic of settlement: units, lines and their loads, sharing, and the arrangements by which
//! unaccounted energy is parted.
#![tactic(auto)]

pub mod arrangements;
mod line_shares;
pub mod lines;
mod loads;
pub mod obliging;
pub mod peaks;
pub mod percent;
mod pots;
mod ranges;
pub mod sharing;
pub mod totals;
pub mod units;
pub mod worked;

pub use arrangements::{Arrangement, ProRata, can_part};
pub use lines::Line;
pub use obliging::obligations;
pub use peaks::PeakLine;
pub use percent::Percent;
pub use ranges::{MISSING, is_account};
pub use sharing::{MOST, Weighted, share, weigh};
pub use totals::group_totals;
pub use units::{Energy, Power};
pub use worked::{worked_peaks, worked_sheet};
