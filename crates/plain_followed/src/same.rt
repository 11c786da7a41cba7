//! Tests of what events are made of: where they answer yes, both are the same.
ghost use Rattle.std.specs.Prelude.{◌≡◌, true};

use journal_types::{Frames, Setup};
use ndis_base::{Frame, Handlers, OidValue};
use program_types::{Action, Program, Rule, Test};

fn same_frame(a: &Frame, b: &Frame) -> bool
    ensures { result ≡ true → a.now ≡ b.now }
{
    a.bytes() == b.bytes()
}

fn same_items(a: &[Frame], b: &[Frame]) -> bool
    ensures { result ≡ true → a.now ≡ b.now }
{
    match a {
        [] => b.is_empty(),
        [x, xs @ ..] => match b {
            [] => false,
            [y, ys @ ..] => same_frame(x, y) && same_items(xs, ys),
        },
    }
}

/// Whether the frames are as many and of the same bytes.
pub fn same_frames(a: &Frames, b: &Frames) -> bool
    ensures { result ≡ true → a.now ≡ b.now }
{
    same_items(a.items(), b.items())
}

/// Whether both are the same number, or there is neither.
pub fn same_number(a: Option<u32>, b: Option<u32>) -> bool
    ensures { result ≡ true → a ≡ b }
{
    match a {
        None => b.is_none(),
        Some(x) => match b {
            None => false,
            Some(y) => x == y,
        },
    }
}

/// Whether both values have the same bytes.
pub fn same_value(a: &OidValue, b: &OidValue) -> bool
    ensures { result ≡ true → a.now ≡ b.now }
{
    a.bytes() == b.bytes()
}

fn same_test(a: Test, b: Test) -> bool
    ensures { result ≡ true → a ≡ b }
{
    match a {
        Test::Any => matches!(b, Test::Any),
        Test::Tagged => matches!(b, Test::Tagged),
        Test::Untagged => matches!(b, Test::Untagged),
        Test::Dst(x) => match b {
            Test::Dst(y) => x == y,
            _ => false,
        },
        Test::Src(x) => match b {
            Test::Src(y) => x == y,
            _ => false,
        },
        Test::EtherType(x) => match b {
            Test::EtherType(y) => x == y,
            _ => false,
        },
        Test::Vlan(x) => match b {
            Test::Vlan(y) => x == y,
            _ => false,
        },
        Test::Longer(x) => match b {
            Test::Longer(y) => x == y,
            _ => false,
        },
        Test::Byte { at, value } => match b {
            Test::Byte { at: p, value: v } => at == p && value == v,
            _ => false,
        },
    }
}

fn same_action(a: Action, b: Action) -> bool
    ensures { result ≡ true → a ≡ b }
{
    match a {
        Action::Drop => matches!(b, Action::Drop),
        Action::Pop => matches!(b, Action::Pop),
        Action::Push(x) => match b {
            Action::Push(y) => x == y,
            _ => false,
        },
        Action::SetDst(x) => match b {
            Action::SetDst(y) => x == y,
            _ => false,
        },
        Action::SetSrc(x) => match b {
            Action::SetSrc(y) => x == y,
            _ => false,
        },
        Action::SetByte { at, value } => match b {
            Action::SetByte { at: p, value: v } => at == p && value == v,
            _ => false,
        },
    }
}

fn same_rule(a: Rule, b: Rule) -> bool
    ensures { result ≡ true → a ≡ b }
{
    same_test(a.test, b.test) && same_action(a.action, b.action)
}

fn same_rules(a: &[Rule], b: &[Rule]) -> bool
    ensures { result ≡ true → a.now ≡ b.now }
{
    match a {
        [] => b.is_empty(),
        [x, xs @ ..] => match b {
            [] => false,
            [y, ys @ ..] => same_rule(*x, *y) && same_rules(xs, ys),
        },
    }
}

fn same_program(a: &Program, b: &Program) -> bool
    ensures { result ≡ true → a.now ≡ b.now }
{
    same_rules(a.rules(), b.rules())
}

fn same_handlers(a: Handlers, b: Handlers) -> bool
    ensures { result ≡ true → a ≡ b }
{
    a == b
}

/// Whether a filter is set up the same in both.
pub fn same_setup(a: &Setup, b: &Setup) -> bool
    ensures { result ≡ true → a.now ≡ b.now }
{
    same_handlers(a.handlers, b.handlers)
        && a.pool == b.pool
        && same_program(&a.send, &b.send)
        && same_program(&a.receive, &b.receive)
}
