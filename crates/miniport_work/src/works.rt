//! The events of the miniport.
ghost use Rattle.std.specs.Prelude.{◌≡◌, OnOk, OnErr, IfOk};
ghost use Rattle.journal_types.specs.declared.Event.TheVariants as event;
ghost use Rattle.journal_types.specs.declared.Reply.TheVariants as reply;
ghost use Rattle.book_parts.specs.Events.{IsBook, IsIdle, DidEvent, IsUnmoved, CanEnd};
ghost use Rattle.book_parts.specs.Parts.{view_of};
ghost use Rattle.stack_rules.specs.Tests.{phase_is_running};
ghost use Rattle.miniport_work.specs.Works.{GoesToMiniport, wired_as};

use crate::calls::{give_back_to, give_to, make_room, take_list, transmit_from};
use book_parts::BookParts;
use driver_calls::{FilterCalls, MiniportCalls, ProtocolCalls};
use flat_journal::Room;
use journal_types::PassWay;
use ndis_base::{ListNo, OutOfMemory};

/// Works the first list on its way, which goes to the miniport: it is a send that comes down, or a receive that comes
/// back.
pub fn work_miniport<M: MiniportCalls, P: ProtocolCalls, F: FilterCalls>(
    book: &mut BookParts<M, P, F>,
) -> Result<(), OutOfMemory>
    requires book { IsBook (view_of M.state P.state F.state book.old) }
    requires idle { IsIdle (view_of M.state P.state F.state book.old) }
    requires first { GoesToMiniport (view_of M.state P.state F.state book.old) }
    ensures did { OnOk result (DidEvent (view_of M.state P.state F.state book.old) (view_of M.state P.state F.state book.new) event.Pump reply.Moved) }
    ensures turn { OnOk result (CanEnd (view_of M.state P.state F.state book.new)) }
    ensures memory { OnErr result (IsUnmoved (view_of M.state P.state F.state book.old) (view_of M.state P.state F.state book.new)) }
{
    let room = Room {
        turns: 1,
        rows: 3,
        frames: 0,
        bytes: 0,
        filters: 0,
        setups: 0,
    };
    make_room(&mut book.miniport, &mut book.tray, room, 1)?;
    let (list, way, _to) = take_list(&mut book.tray);
    match way {
        PassWay::Down => {
            give_to(
                &mut book.miniport,
                &mut book.tray,
                &mut book.miniport_pool,
                list,
            );
        }
        PassWay::Back(status) => {
            give_back_to(
                &mut book.miniport,
                &mut book.tray,
                &mut book.miniport_pool,
                list,
                status,
            );
        }
        PassWay::Up => unreachable!(),
        PassWay::Done(_status) => unreachable!(),
    }
    Ok(())
}

/// The miniport transmits the oldest list of its ring, and gives its number. None where there is none.
/// `running` tells whether the stack runs.
pub fn transmit<M: MiniportCalls, P: ProtocolCalls, F: FilterCalls>(
    book: &mut BookParts<M, P, F>,
    running: bool,
) -> Result<Option<ListNo>, OutOfMemory>
    requires book { IsBook (view_of M.state P.state F.state book.old) }
    requires idle { IsIdle (view_of M.state P.state F.state book.old) }
    requires running { running ≡ phase_is_running (view_of M.state P.state F.state book.old).tray.net.phase }
    ensures did { IfOk result (λ wired. DidEvent (view_of M.state P.state F.state book.old) (view_of M.state P.state F.state book.new) event.Transmit (wired_as wired)) }
    ensures turn { OnOk result (CanEnd (view_of M.state P.state F.state book.new)) }
    ensures memory { OnErr result (IsUnmoved (view_of M.state P.state F.state book.old) (view_of M.state P.state F.state book.new)) }
{
    let room = Room {
        turns: 1,
        rows: 4,
        frames: 8,
        bytes: 12144,
        filters: 0,
        setups: 0,
    };
    make_room(&mut book.miniport, &mut book.tray, room, 2)?;
    Ok(transmit_from(
        &mut book.miniport,
        &mut book.tray,
        &mut book.miniport_pool,
        running,
    ))
}
