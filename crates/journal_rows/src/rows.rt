//! The words of rows.
ghost use Rattle.std.specs.Prelude.{◌≡◌, ◌++◌, ◌∷◌, [], OnOk, codes, decimal, map};
ghost use Rattle.ndis_base.specs.Names.{direction_text};
ghost use Rattle.journal_types.specs.declared.Row.TheVariants as row;
ghost use Rattle.journal_words.specs.Words.{word, spaced, module_text, optional_text, filter_text};
ghost use Rattle.journal_rows.specs.Rows.{handler_text, how_text, way_text, issued_words, pass_words, phase_words, config_words, parent_text, out_words, row_words};

use journal_types::{Frames, Handler, How, OutWay, PassWay, PhaseOf, Row, Target, Way};
use journal_words::page::Page;
use ndis_base::{
    ConfigNo, CrossNo, Direction, ListNo, ListStatus, ModuleId, OidKind, OidNo, OidStatus, Origin,
    OutOfMemory, StatusName, StatusNo, name_of_direction, name_of_list_status, name_of_oid_kind,
    name_of_oid_status, name_of_phase, name_of_state, name_of_status_name,
};

fn name_of_handler(handler: Handler) -> &'static str
    ensures { result.now ≡ handler_text handler }
{
    match handler {
        Handler::Send => "send",
        Handler::SendComplete => "send_complete",
        Handler::Receive => "receive",
        Handler::ReceiveLent => "receive_lent",
        Handler::Returned => "returned",
    }
}

pub fn name_of_how(how: How) -> &'static str
    ensures { result.now ≡ how_text how }
{
    match how {
        How::Own => "own",
        How::Lent => "lent",
    }
}

pub fn name_of_way(way: Way) -> &'static str
    ensures { result.now ≡ way_text way }
{
    match way {
        Way::Down => "down",
        Way::Up => "up",
    }
}

fn push_issued(page: &mut Page, origin: Origin, frames: &Frames) -> Result<(), OutOfMemory>
    ensures { OnOk result (page.new ≡ spaced page.old (issued_words origin frames.now)) }
{
    match origin {
        Origin::Root => page.text(" -")?,
        Origin::Clone(list) => {
            page.text(" clone")?;
            page.number(list.0)?;
        }
        Origin::Copy(list) => {
            page.text(" copy")?;
            page.number(list.0)?;
        }
    }
    page.frames(frames)
}

fn push_pass(page: &mut Page, way: PassWay, target: Target) -> Result<(), OutOfMemory>
    ensures { OnOk result (page.new ≡ spaced page.old (pass_words way target)) }
{
    match way {
        PassWay::Down => {
            page.text(" down")?;
            page.target(target)
        }
        PassWay::Done(status) => {
            page.text(" done")?;
            page.target(target)?;
            page.word(name_of_list_status(status))
        }
        PassWay::Up => {
            page.text(" up")?;
            page.target(target)
        }
        PassWay::Back(status) => {
            page.text(" back")?;
            page.target(target)?;
            page.word(name_of_list_status(status))
        }
    }
}

fn push_phase(page: &mut Page, of: PhaseOf) -> Result<(), OutOfMemory>
    ensures { OnOk result (page.new ≡ spaced page.old (phase_words of)) }
{
    match of {
        PhaseOf::Module(module, state) => {
            page.module(module)?;
            page.word(name_of_state(state))
        }
        PhaseOf::Stack(phase) => {
            page.text(" s")?;
            page.word(name_of_phase(phase))
        }
    }
}

fn push_filters(page: &mut Page, filters: &[u64]) -> Result<(), OutOfMemory>
    ensures { OnOk result (page.new ≡ spaced page.old (map filter_text filters.now)) }
{
    for filter in filters {
        page.filter(*filter)?;
    }
    Ok(())
}

fn push_config(page: &mut Page, filters: &[u64]) -> Result<(), OutOfMemory>
    ensures { OnOk result (page.new ≡ spaced page.old (config_words filters.now)) }
{
    match filters {
        [] => page.text(" -"),
        [first, more @ ..] => {
            page.filter(*first)?;
            push_filters(page, more)
        }
    }
}

fn push_parent(page: &mut Page, parent: Option<OidNo>) -> Result<(), OutOfMemory>
    ensures { OnOk result (page.new ≡ word page.old (parent_text parent)) }
{
    match parent {
        None => page.text(" -"),
        Some(request) => page.number(request.0),
    }
}

fn push_out(page: &mut Page, way: OutWay, frames: &Frames) -> Result<(), OutOfMemory>
    ensures { OnOk result (page.new ≡ spaced page.old (out_words way frames.now)) }
{
    match way {
        OutWay::Down(list) => {
            page.text(" down")?;
            page.number(list.0)?;
            page.frames(frames)
        }
        OutWay::Up => {
            page.text(" up")?;
            page.text(" -")?;
            page.frames(frames)
        }
    }
}

/// A text and the list that the row is about.
#[inline(always)]
pub fn push_list(page: &mut Page, text: &str, list: ListNo) -> Result<(), OutOfMemory>
    ensures { OnOk result (page.new ≡ (page.old ++ text.now) ++ decimal list.0) }
{
    page.text(text)?;
    page.digits(list.0)
}

/// What an issued list is, up to its configuration.
pub fn push_new_list(
    page: &mut Page,
    list: ListNo,
    owner: ModuleId,
    config: ConfigNo,
) -> Result<(), OutOfMemory>
    ensures { OnOk result (page.new ≡ spaced page.old (codes "issue" ∷ decimal list.0 ∷ module_text owner ∷ decimal config.0 ∷ [])) }
{
    push_list(page, " issue ", list)?;
    page.module(owner)?;
    page.number(config.0)
}

/// Where an issued list goes, and its frames.
fn push_issue(
    page: &mut Page,
    direction: Direction,
    cancel: Option<u32>,
    origin: Origin,
    frames: &Frames,
) -> Result<(), OutOfMemory>
    ensures { OnOk result (page.new ≡ spaced page.old (direction_text direction ∷ optional_text cancel ∷ issued_words origin frames.now)) }
{
    page.word(name_of_direction(direction))?;
    page.optional_number(cancel)?;
    push_issued(page, origin, frames)
}

pub fn push_give(
    page: &mut Page,
    list: ListNo,
    module: ModuleId,
    handler: Handler,
) -> Result<(), OutOfMemory>
    ensures { OnOk result (page.new ≡ spaced page.old (row_words (row.Give list «module» handler))) }
{
    push_list(page, " give ", list)?;
    page.module(module)?;
    page.word(name_of_handler(handler))
}

pub fn push_passed(
    page: &mut Page,
    list: ListNo,
    way: PassWay,
    to: Target,
) -> Result<(), OutOfMemory>
    ensures { OnOk result (page.new ≡ spaced page.old (row_words (row.Pass list way to))) }
{
    push_list(page, " pass ", list)?;
    push_pass(page, way, to)
}

pub fn push_keep(page: &mut Page, list: ListNo, module: ModuleId) -> Result<(), OutOfMemory>
    ensures { OnOk result (page.new ≡ spaced page.old (row_words (row.Keep list «module»))) }
{
    push_list(page, " keep ", list)?;
    page.module(module)
}

pub fn push_turn_back(
    page: &mut Page,
    list: ListNo,
    module: ModuleId,
    status: ListStatus,
) -> Result<(), OutOfMemory>
    ensures { OnOk result (page.new ≡ spaced page.old (row_words (row.TurnBack list «module» status))) }
{
    push_list(page, " turnback ", list)?;
    page.module(module)?;
    page.word(name_of_list_status(status))
}

pub fn push_home(
    page: &mut Page,
    list: ListNo,
    owner: ModuleId,
    status: ListStatus,
) -> Result<(), OutOfMemory>
    ensures { OnOk result (page.new ≡ spaced page.old (row_words (row.Home list owner status))) }
{
    push_list(page, " home ", list)?;
    page.module(owner)?;
    page.word(name_of_list_status(status))
}

fn push_wire(page: &mut Page, list: ListNo, frames: &Frames) -> Result<(), OutOfMemory>
    ensures { OnOk result (page.new ≡ spaced page.old (row_words (row.Wire list frames.now))) }
{
    push_list(page, " wire ", list)?;
    page.frames(frames)
}

fn push_deliver(
    page: &mut Page,
    list: ListNo,
    binding: u32,
    how: How,
    frames: &Frames,
) -> Result<(), OutOfMemory>
    ensures { OnOk result (page.new ≡ spaced page.old (row_words (row.Deliver list binding how frames.now))) }
{
    push_list(page, " deliver ", list)?;
    page.binding(binding)?;
    page.word(name_of_how(how))?;
    page.frames(frames)
}

pub fn push_phase_row(page: &mut Page, of: PhaseOf) -> Result<(), OutOfMemory>
    ensures { OnOk result (page.new ≡ spaced page.old (row_words (row.Phase of))) }
{
    page.text(" phase")?;
    push_phase(page, of)
}

pub fn push_config_row(
    page: &mut Page,
    config: ConfigNo,
    filters: &[u64],
) -> Result<(), OutOfMemory>
    ensures { OnOk result (page.new ≡ spaced page.old (row_words (row.Config config filters.now))) }
{
    page.text(" config")?;
    page.number(config.0)?;
    push_config(page, filters)
}

pub fn push_oid_issue(
    page: &mut Page,
    request: OidNo,
    parent: Option<OidNo>,
    binding: u32,
    kind: OidKind,
    code: u32,
    value: &[u8],
) -> Result<(), OutOfMemory>
    ensures { OnOk result (page.new ≡ spaced page.old (row_words (row.OidIssue request parent binding kind code value.now))) }
{
    page.text(" oidissue")?;
    page.number(request.0)?;
    push_parent(page, parent)?;
    page.binding(binding)?;
    page.word(name_of_oid_kind(kind))?;
    page.code(code)?;
    page.value(value)
}

pub fn push_oid_give(page: &mut Page, request: OidNo, module: ModuleId) -> Result<(), OutOfMemory>
    ensures { OnOk result (page.new ≡ spaced page.old (row_words (row.OidGive request «module»))) }
{
    page.text(" oidgive")?;
    page.number(request.0)?;
    page.module(module)
}

pub fn push_oid_done(
    page: &mut Page,
    request: OidNo,
    status: OidStatus,
    value: &[u8],
) -> Result<(), OutOfMemory>
    ensures { OnOk result (page.new ≡ spaced page.old (row_words (row.OidDone request status value.now))) }
{
    page.text(" oiddone")?;
    page.number(request.0)?;
    page.word(name_of_oid_status(status))?;
    page.value(value)
}

pub fn push_status(
    page: &mut Page,
    number: StatusNo,
    name: StatusName,
    to: Target,
) -> Result<(), OutOfMemory>
    ensures { OnOk result (page.new ≡ spaced page.old (row_words (row.Status number name to))) }
{
    page.text(" status")?;
    page.number(number.0)?;
    page.word(name_of_status_name(name))?;
    page.target(to)
}

pub fn push_seen(page: &mut Page, number: StatusNo, module: ModuleId) -> Result<(), OutOfMemory>
    ensures { OnOk result (page.new ≡ spaced page.old (row_words (row.Seen number «module»))) }
{
    page.text(" seen")?;
    page.number(number.0)?;
    page.module(module)
}

fn push_cross_out(
    page: &mut Page,
    message: CrossNo,
    way: OutWay,
    frames: &Frames,
) -> Result<(), OutOfMemory>
    ensures { OnOk result (page.new ≡ spaced page.old (row_words (row.CrossOut message way frames.now))) }
{
    page.text(" crossout")?;
    page.number(message.0)?;
    push_out(page, way, frames)
}

fn push_cross_in(
    page: &mut Page,
    stack: u8,
    message: CrossNo,
    way: Way,
    frames: &Frames,
) -> Result<(), OutOfMemory>
    ensures { OnOk result (page.new ≡ spaced page.old (row_words (row.CrossIn stack message way frames.now))) }
{
    page.text(" crossin")?;
    page.number(u64::from(stack))?;
    page.number(message.0)?;
    page.word(name_of_way(way))?;
    page.frames(frames)
}

pub fn push_row(page: &mut Page, row: &Row) -> Result<(), OutOfMemory>
    ensures { OnOk result (page.new ≡ spaced page.old (row_words row.now)) }
{
    match row {
        Row::Issue {
            list,
            owner,
            config,
            direction,
            cancel,
            origin,
            frames,
        } => {
            push_new_list(page, *list, *owner, *config)?;
            push_issue(page, *direction, *cancel, *origin, frames)
        }
        Row::Give {
            list,
            module,
            handler,
        } => push_give(page, *list, *module, *handler),
        Row::Pass { list, way, to } => push_passed(page, *list, *way, *to),
        Row::Keep { list, module } => push_keep(page, *list, *module),
        Row::TurnBack {
            list,
            module,
            status,
        } => push_turn_back(page, *list, *module, *status),
        Row::Home {
            list,
            owner,
            status,
        } => push_home(page, *list, *owner, *status),
        Row::Wire { list, frames } => push_wire(page, *list, frames),
        Row::Deliver {
            list,
            binding,
            how,
            frames,
        } => push_deliver(page, *list, *binding, *how, frames),
        Row::Phase { of } => push_phase_row(page, *of),
        Row::Config { config, filters } => push_config_row(page, *config, filters.items()),
        Row::OidIssue {
            request,
            parent,
            binding,
            kind,
            code,
            value,
        } => push_oid_issue(
            page,
            *request,
            *parent,
            *binding,
            *kind,
            *code,
            value.bytes(),
        ),
        Row::OidGive { request, module } => push_oid_give(page, *request, *module),
        Row::OidDone {
            request,
            status,
            value,
        } => push_oid_done(page, *request, *status, value.bytes()),
        Row::Status { number, name, to } => push_status(page, *number, *name, *to),
        Row::Seen { number, module } => push_seen(page, *number, *module),
        Row::CrossOut {
            message,
            way,
            frames,
        } => push_cross_out(page, *message, *way, frames),
        Row::CrossIn {
            stack,
            message,
            way,
            frames,
        } => push_cross_in(page, *stack, *message, *way, frames),
    }
}
