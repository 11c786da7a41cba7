//! How often and with what a journal calls each driver, and which driver stands for each module, computed
//! plainly from the journal alone.
#![tactic(auto)]

pub mod calls;
pub mod counts;
pub mod drivers;
pub mod kinds;
pub mod logs;
pub mod places;
pub mod shelf;

ghost use Rattle.std.specs.Prelude.{◌≡◌};

pub use crate::counts::served;
pub use crate::drivers::served_at;
pub use crate::logs::log_of;
pub use crate::places::{miniport_place, protocol_places};
pub use crate::shelf::{PlainShelf, shelf_of};
