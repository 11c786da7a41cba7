//! Tests of an event against what is asked: where they answer yes, it is that event.
ghost use Rattle.std.specs.Prelude.{◌≡◌, true};

use crate::same::{same_frames, same_number, same_setup, same_value};
use journal_types::{Event, Frames, Setup};
use ndis_base::{CrossNo, FilterKind, ListNo, ListStatus, OidKind, OidValue, StatusName};

pub fn is_insert(event: &Event, kind: FilterKind, at: u64, setup: &Setup) -> bool
    ensures { result ≡ true → event.now ≡ Event.Insert kind at setup.now }
{
    match event {
        Event::Insert {
            kind: k,
            position: p,
            setup: s,
        } => *k == kind && *p as u64 == at && same_setup(s, setup),
        _ => false,
    }
}

pub fn is_remove(event: &Event, filter: u64) -> bool
    ensures { result ≡ true → event.now ≡ Event.Remove filter }
{
    match event {
        Event::Remove { filter: f } => *f == filter,
        _ => false,
    }
}

pub fn is_replace(event: &Event, filter: u64, kind: FilterKind, setup: &Setup) -> bool
    ensures { result ≡ true → event.now ≡ Event.Replace filter kind setup.now }
{
    match event {
        Event::Replace {
            filter: f,
            kind: k,
            setup: s,
        } => *f == filter && *k == kind && same_setup(s, setup),
        _ => false,
    }
}

pub fn is_send(event: &Event, binding: u32, cancel: Option<u32>, frames: &Frames) -> bool
    ensures { result ≡ true → event.now ≡ Event.Send binding cancel frames.now }
{
    match event {
        Event::Send {
            binding: b,
            cancel: c,
            frames: f,
        } => *b == binding && same_number(*c, cancel) && same_frames(f, frames),
        _ => false,
    }
}

pub fn is_indicate(event: &Event, frames: &Frames) -> bool
    ensures { result ≡ true → event.now ≡ Event.Indicate frames.now }
{
    match event {
        Event::Indicate { frames: f } => same_frames(f, frames),
        _ => false,
    }
}

pub fn is_lend(event: &Event, frames: &Frames) -> bool
    ensures { result ≡ true → event.now ≡ Event.Lend frames.now }
{
    match event {
        Event::Lend { frames: f } => same_frames(f, frames),
        _ => false,
    }
}

pub fn is_give_back(event: &Event, binding: u32, list: ListNo) -> bool
    ensures { result ≡ true → event.now ≡ Event.GiveBack binding list }
{
    match event {
        Event::GiveBack {
            binding: b,
            list: l,
        } => *b == binding && l.0 == list.0,
        _ => false,
    }
}

pub fn is_cancel(event: &Event, id: u32) -> bool
    ensures { result ≡ true → event.now ≡ Event.Cancel id }
{
    match event {
        Event::Cancel { id: i } => *i == id,
        _ => false,
    }
}

pub fn is_ask(event: &Event, binding: u32, kind: OidKind, code: u32, value: &OidValue) -> bool
    ensures { result ≡ true → event.now ≡ Event.Ask binding kind code value.now }
{
    match event {
        Event::Ask {
            binding: b,
            kind: k,
            code: c,
            value: v,
        } => *b == binding && *k == kind && *c == code && same_value(v, value),
        _ => false,
    }
}

pub fn is_status(event: &Event, name: StatusName) -> bool
    ensures { result ≡ true → event.now ≡ Event.Status name }
{
    match event {
        Event::Status { name: n } => *n == name,
        _ => false,
    }
}

pub fn is_cross_put(event: &Event, stack: u8, message: CrossNo, vlan: u16, frames: &Frames) -> bool
    ensures { result ≡ true → event.now ≡ Event.CrossPut stack message vlan frames.now }
{
    match event {
        Event::CrossPut {
            stack: s,
            message: m,
            vlan: v,
            frames: f,
        } => *s == stack && m.0 == message.0 && *v == vlan && same_frames(f, frames),
        _ => false,
    }
}

pub fn is_cross_done(event: &Event, message: CrossNo, status: ListStatus) -> bool
    ensures { result ≡ true → event.now ≡ Event.CrossDone message status }
{
    match event {
        Event::CrossDone {
            message: m,
            status: s,
        } => m.0 == message.0 && *s == status,
        _ => false,
    }
}

pub fn is_cross_take_up(event: &Event, binding: u32, vlan: u16) -> bool
    ensures { result ≡ true → event.now ≡ Event.CrossTakeUp binding vlan }
{
    match event {
        Event::CrossTakeUp {
            binding: b,
            vlan: v,
        } => *b == binding && *v == vlan,
        _ => false,
    }
}

pub fn is_cross_put_up(event: &Event, stack: u8, message: CrossNo, frames: &Frames) -> bool
    ensures { result ≡ true → event.now ≡ Event.CrossPutUp stack message frames.now }
{
    match event {
        Event::CrossPutUp {
            stack: s,
            message: m,
            frames: f,
        } => *s == stack && m.0 == message.0 && same_frames(f, frames),
        _ => false,
    }
}
