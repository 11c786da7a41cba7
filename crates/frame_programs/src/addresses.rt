//! The addresses that rules write.
ghost use Rattle.std.specs.Prelude.{◌≡◌, length};
ghost use Rattle.hand_lemmas.specs.Frames.{IsAddressed, AreAddressed};

use program_types::{Action, Rule};

fn tell_six(_address: &[u8; 6])
    ensures { length _address.now ≡ 6 }
{}

fn tell_address(action: Action)
    ensures { IsAddressed action }
{
    match action {
        Action::SetDst(address) => tell_six(&address),
        Action::SetSrc(address) => tell_six(&address),
        _ => {}
    }
}

/// Each address that rules write has six bytes, as its type says: this tells it to contracts, and does
/// nothing.
pub(crate) fn tell_addresses(rules: &[Rule])
    ensures { AreAddressed rules.now }
{
    match rules {
        [first, rest @ ..] => {
            tell_address(first.action);
            tell_addresses(rest);
        }
        [] => {}
    }
}
