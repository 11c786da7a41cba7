//! The rules of the stack, computed plainly by their definitions: whether an event may be asked
//! (`may_ask`), what it answers and writes (`outcome_of`), and the state after one more row
//! (`PlainNet::note`) or one more turn (`note_turn`). Nothing of the drivers, the pools and the
//! indexes of a stack is used here.
#![tactic(auto)]

pub mod events;
pub mod turns;

ghost use Rattle.std.specs.Prelude.{◌≡◌};

pub use crate::events::outcome_of;
pub use crate::turns::note_turn;
pub use plain_conditions::conditions::may_ask;
pub use plain_net::PlainNet;
pub use plain_places::PlainOutcome;
