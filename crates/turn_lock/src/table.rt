// The lock and its memory.
ghost use Rattle.std.specs.Prelude.{◌≡◌};

use crate::rule::InTurn;
use crate::turned::Turned;
use crate::view::{About, View};
use atomic_table::Table;
use std::alloc::Global;

/// A lock of an object. Threads share it by reference, and each uses a seat of its own. It ends by `close`.
///
/// Word 0 of its table is the next ticket, word 1 the front as `turns * 8 + phase`, with the phases numbered from 0 in
/// the order of the enum, and the one slot holds the object.
pub struct TurnLock<O: Turned> {
    pub(crate) table: Table<Option<O>, View<O, O::Call, O::Reply>, About<O>, InTurn<O>, Global>,
    ghost sized: { (table.shared.table_id.words ≡ 2) × (table.shared.table_id.slots ≡ 1) },
}
