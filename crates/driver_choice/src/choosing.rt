//! Which of the drivers that are handed in a stack takes.
ghost use Rattle.std.specs.Prelude.{◌≡◌, ◌+◌, ◌≤◌, ◌↔◌, false, length, map, position, count_by};
ghost use Rattle.std.specs.Vec.{vec_capacity};
ghost use Rattle.driver_choice.specs.Chosen.{is_miniport, is_protocol, is_for, LacksProtocols, Chooses};

use driver_calls::{MiniportCalls, ProtocolCalls};
use ndis_base::{MiniportKind, ProtocolKind};

fn is_miniport<M: MiniportCalls>(miniport: &M, kind: MiniportKind) -> bool
    ensures { result ≡ is_miniport kind (M.state miniport.now) }
{
    miniport.kind() == kind
}

fn is_protocol<P: ProtocolCalls>(protocol: &P, kind: ProtocolKind) -> bool
    ensures { result ≡ is_protocol kind (P.state protocol.now) }
{
    protocol.kind() == kind
}

fn is_for(setup: &(ProtocolKind, usize), kind: ProtocolKind) -> bool
    ensures { result ≡ is_for kind setup.now }
{
    setup.0 == kind
}

/// The first miniport of a kind.
pub fn first_miniport<M: MiniportCalls>(miniports: &[M], kind: MiniportKind) -> Option<usize>
    ensures { result ≡ position (is_miniport kind) (map M.state miniports.now) }
{
    for (i, miniport) in miniports.iter().enumerate() {
        if is_miniport(miniport, kind) {
            return Some(i);
        }
    }
    None
}

/// The first protocol of a kind.
fn first_protocol<P: ProtocolCalls>(protocols: &[P], kind: ProtocolKind) -> Option<usize>
    ensures { result ≡ position (is_protocol kind) (map P.state protocols.now) }
{
    for (i, protocol) in protocols.iter().enumerate() {
        if is_protocol(protocol, kind) {
            return Some(i);
        }
    }
    None
}

/// How many protocols are of a kind.
fn count_protocols<P: ProtocolCalls>(protocols: &[P], kind: ProtocolKind) -> usize
    ensures { result ≡ count_by (is_protocol kind) (map P.state protocols.now) }
{
    let mut count = 0;
    for protocol in protocols {
        if is_protocol(protocol, kind) {
            count += 1;
        }
    }
    count
}

/// How many bindings are for protocols of a kind.
fn count_bindings(setups: &[(ProtocolKind, usize)], kind: ProtocolKind) -> usize
    ensures { result ≡ count_by (is_for kind) setups.now }
{
    let mut count = 0;
    for setup in setups {
        if is_for(setup, kind) {
            count += 1;
        }
    }
    count
}

/// Whether there are as many protocols of each kind as the bindings name.
pub fn are_enough<P: ProtocolCalls>(protocols: &[P], setups: &[(ProtocolKind, usize)]) -> bool
    ensures { (result ≡ false) ↔ LacksProtocols setups.now (map P.state protocols.now) }
{
    let [setup, more @ ..] = setups else {
        return true;
    };
    count_bindings(setups, setup.0) <= count_protocols(protocols, setup.0)
        && are_enough(protocols, more)
}

/// Takes the protocols of the bindings out of those that were handed in: for each binding the first of
/// its kind that no earlier binding has.
pub fn take_protocols<P: ProtocolCalls>(
    protocols: &mut Vec<P>,
    chosen: &mut Vec<P>,
    setups: &[(ProtocolKind, usize)],
)
    requires room { length chosen.old.items + length setups.now ≤ vec_capacity chosen.old }
    requires enough { ¬ LacksProtocols setups.now (map P.state protocols.old.items) }
    ensures chooses { Chooses setups.now (map P.state protocols.old.items) (map P.state chosen.old.items) (map P.state chosen.new.items) (map P.state protocols.new.items) }
    ensures count { length protocols.new.items + length setups.now ≡ length protocols.old.items }
    ensures capacity { vec_capacity protocols.new ≡ vec_capacity protocols.old }
{
    let [setup, more @ ..] = setups else {
        return;
    };
    let Some(i) = first_protocol(protocols.as_slice(), setup.0) else {
        unreachable!()
    };
    let protocol = protocols.remove(i);
    chosen.push_reserved(protocol);
    take_protocols(protocols, chosen, more);
}
