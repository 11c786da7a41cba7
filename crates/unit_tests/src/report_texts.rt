//! A small report, written whole, of `run_report`.
use ndis_base::{Front, LaneNo, MiniportKind, Phase, ProtocolKind};
use ndis_journal::{BindingSetups, Journal, PortSetup, StackHead, UpperLinks, write_text};
use outside_io::MemorySink;
use run_report::{Refused, write_report};
use std::test::Fail;

#[test]
fn reports_a_stack_and_refused_calls(rt: HostRuntime) -> Result<(), Fail> {
    let alloc = rt.alloc();
    let mut bindings = Vec::new(alloc);
    bindings.push((ProtocolKind::Mux, 4))?;
    let head = StackHead {
        stack: 1,
        kind: MiniportKind::Virtual,
        port: PortSetup {
            address: [2, 0, 0, 0, 0, 171],
            ring: 4,
            pool: 5,
            vlan: Some(7),
        },
        link: Some((0, 2)),
        bindings: BindingSetups::of(bindings),
        uppers: UpperLinks::of(Vec::new(alloc)),
    };
    let mut journals = Vec::new(alloc);
    journals.push(Journal::make(alloc, head))?;
    let front = Front {
        turns: 3,
        phase: Phase::Running,
    };
    let late = Refused {
        lane: LaneNo(1),
        call: 2,
        stack: 1,
        front,
    };
    let early = Refused {
        lane: LaneNo(0),
        call: 9,
        stack: 1,
        front,
    };
    let mut sink = MemorySink::make(alloc, 1000, Vec::new(alloc))?;
    let written = write_report(alloc, &mut sink, &journals, &[late, early]);
    assert!(rt; written == Ok(()));
    let mut text = Vec::new(alloc);
    for journal in &journals {
        write_text(journal, &mut text)?;
    }
    text.extend_from_slice(b"refused lane 0 call 9 stack 1 front 3 Running\n")?;
    text.extend_from_slice(b"refused lane 1 call 2 stack 1 front 3 Running\n")?;
    assert_eq!(rt; sink.bytes(), text.as_slice());
    assert_eq!(rt;
        sink.bytes(),
        b"stack 1 miniport virtual address 0200000000ab ring 4 pool 5 lower 0 b2 vlan 7\nbinding b0 mux pool 4\nend stack 1 turns 0 lists 0 homes 0 wires 0 delivers 0\nrefused lane 0 call 9 stack 1 front 3 Running\nrefused lane 1 call 2 stack 1 front 3 Running\n".as_slice()
    );
    Ok(())
}
