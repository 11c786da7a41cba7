//! The top call.
ghost use Rattle.std.specs.Prelude.{◌≡◌, ◌≢◌, ◌↔◌, ◌⊎◌, ℕ, [], false, All, OnOk, IfOk, IfErr, IfSome, IsTrue, true};
ghost use Rattle.outside_io.specs.Edges.{Rose, AddsPrefix};
ghost use Rattle.script_types.specs.declared.ScriptPlace.{ScriptPlace};
ghost use Rattle.script_types.specs.declared.ScriptCause.{ScriptCause};
ghost use Rattle.book_opening.specs.Opened.{AreIdle, handed_of};
ghost use Rattle.script_runs.specs.Built.{is_built, IsRun};
ghost use Rattle.script_runs.specs.Drivers.{LacksDrivers, LeavesDrivers, ComesBack};
ghost use Rattle.command_words.specs.Words as form;
ghost use Rattle.ndis_cli.specs.Answers.{IsOf, IsFaulty, AddsAll, AreBack, OthersAreLeft, GivesUp, GaveUp, Replayed, Wrote, IsFine, LacksFirst, LacksParts, all_handed, texts_of, is_early, ends_reading, ends_replay, IsDone, IsWanting};

use book_opening::StackDrivers;
use command_words::order_of;
use driver_calls::{FilterCalls, MiniportCalls, ProtocolCalls};
use flat_journal::FlatJournal;
use flat_report::write_flat_report;
use ndis_base::OutOfMemory;
use outside_io::{ReadRefusal, Sink, Source, read_all};
use run_report::ReportFault;
use script_file::read_script;
use script_runs::{RunFault, is_built, run_script};
use script_types::{Script, ScriptCause, ScriptFault, ScriptPlace};
use std::alloc::Global;
use thiserror::Error;

/// The most bytes that a script has.
pub const MAX_SCRIPT: usize = 4_194_304;

/// How a call ended.
#[derive(Clone, Copy, Debug, PartialEq, Eq, Error)]
pub enum Status {
    /// All was read, run and written.
    #[error("done")]
    Done,
    /// The words are no form of the command. Nothing was read or written.
    #[error("usage: ndis replay [--order L,L]")]
    Usage,
    /// The bytes are no script, or one that can't be run yet. Nothing was written.
    #[error("bad script at {place}: {cause}")]
    BadScript {
        place: ScriptPlace,
        cause: ScriptCause,
    },
    /// A read failed.
    #[error("read fault")]
    ReadFault,
    /// A write failed. What was written is a prefix of the report.
    #[error("write fault")]
    WriteFault,
    /// Memory ran out. Drivers that were moved into the stack may be gone.
    #[error("out of memory")]
    Memory,
    /// There are too few drivers of the kinds that this stack names, the first such.
    #[error("no parts for stack {stack}")]
    NoParts {
        stack: usize,
    },
}

/// Reads a script, opens its stack over the first of the parts, makes its calls, ends the stack, and
/// writes the report. After every answer but `Memory` the drivers come back to where they were: the
/// miniport and the protocols of the stack before the others, and on the shelf filters of the same kinds
/// in the same order. After an answer before the run they are as they were.
pub fn ndis_serial<S: Source, K: Sink, M: MiniportCalls, P: ProtocolCalls, F: FilterCalls>(
    alloc: Global,
    words: &[String],
    source: &mut S,
    sink: &mut K,
    parts: &mut Vec<StackDrivers<M, P, F>>,
) -> Status
    requires idle { All AreIdle (all_handed M.state P.state F.state parts.old.items) }
    // Usage, exactly where the words are no form; then nothing is read.
    ensures usage { (result ≡ Status.Usage) ↔ (form.is_form (texts_of words.now) ≡ false) }
    ensures unread { result ≡ Status.Usage → source.new ≡ source.old }
    // A script that is faulty.
    ensures bad { (at : ScriptPlace) (why : ScriptCause) → result ≡ Status.BadScript at why → IfSome (S.left source.old) (λ bytes. IsFaulty bytes at why) }
    // Drivers are wanting for the only stack of a script that can be run.
    ensures no_parts { (k : ℕ) → result ≡ Status.NoParts k → LacksParts (S.left source.old) (all_handed M.state P.state F.state parts.old.items) k }
    // After a run nothing is left to be read.
    ensures read { result ≡ Status.Done → IfSome (S.left source.new) (λ rest. rest ≡ []) }
    // Faults of the outside.
    ensures read_fault { result ≡ Status.ReadFault → Rose (S.faults source.old) (S.faults source.new) }
    ensures write_fault { result ≡ Status.WriteFault → Rose (K.faults sink.old) (K.faults sink.new) }
    // The report of a run of the script, whole, or a prefix of one.
    ensures done { result ≡ Status.Done → Wrote AddsAll (form.order_told (texts_of words.now)) (S.left source.old) (all_handed M.state P.state F.state parts.old.items) (all_handed M.state P.state F.state parts.new.items) (K.holds sink.old) (K.holds sink.new) }
    ensures cut { result ≡ Status.WriteFault → Wrote AddsPrefix (form.order_told (texts_of words.now)) (S.left source.old) (all_handed M.state P.state F.state parts.old.items) (all_handed M.state P.state F.state parts.new.items) (K.holds sink.old) (K.holds sink.new) }
    ensures memory { result ≡ Status.Memory → (K.holds sink.new ≡ K.holds sink.old) ⊎ Wrote AddsPrefix (form.order_told (texts_of words.now)) (S.left source.old) (all_handed M.state P.state F.state parts.old.items) (all_handed M.state P.state F.state parts.new.items) (K.holds sink.old) (K.holds sink.new) }
    // The parts are then as they were, or the drivers that the stack took are gone, or they came back after a run.
    ensures given_up { result ≡ Status.Memory → (parts.new.items ≡ parts.old.items) ⊎ GaveUp (S.left source.old) (all_handed M.state P.state F.state parts.old.items) (all_handed M.state P.state F.state parts.new.items) }
    // Where nothing was run nothing is written, and the drivers are as they were.
    ensures silent { IsTrue (is_early result) → K.holds sink.new ≡ K.holds sink.old }
    ensures kept { IsTrue (is_early result) → parts.new.items ≡ parts.old.items }
    // Whatever drivers come back may be handed in again.
    ensures idle { All AreIdle (all_handed M.state P.state F.state parts.new.items) }
    // Where nothing is amiss it is done, or drivers are wanting, unless memory runs out.
    ensures complete { form.is_form (texts_of words.now) ≢ false → (fine : IsFine (S.left source.old)) → ¬ LacksFirst fine.script (all_handed M.state P.state F.state parts.old.items) → ¬ Rose (S.faults source.old) (S.faults source.new) → ¬ Rose (K.faults sink.old) (K.faults sink.new) → IsDone result }
    ensures lacking { form.is_form (texts_of words.now) ≢ false → (fine : IsFine (S.left source.old)) → LacksFirst fine.script (all_handed M.state P.state F.state parts.old.items) → ¬ Rose (S.faults source.old) (S.faults source.new) → IsWanting result }
{
    let order = match order_of(alloc, words) {
        Ok(Some(order)) => order,
        Ok(None) => return Status::Usage,
        Err(OutOfMemory) => return Status::Memory,
    };
    match read_built(alloc, source) {
        Ok(script) => replay(alloc, &script, order.as_slice(), sink, parts),
        Err(status) => status,
    }
}

/// Reads a script that can be run, or tells why there is none.
fn read_built<S: Source>(alloc: Global, source: &mut S) -> Result<Script, Status>
    ensures script { IfOk result (λ script. IsOf (S.left source.old) script) }
    ensures built { IfOk result (λ script. is_built script ≡ true) }
    ensures only { IfOk result (λ script. (fine : IsFine (S.left source.old)) → fine.script ≡ script) }
    ensures read { OnOk result (IfSome (S.left source.new) (λ rest. rest ≡ [])) }
    ensures early { IfErr result (λ status. IsTrue (ends_reading status)) }
    ensures fault { IfErr result (λ status. status ≡ Status.ReadFault → Rose (S.faults source.old) (S.faults source.new)) }
    ensures bad { IfErr result (λ status. (at : ScriptPlace) (why : ScriptCause) → status ≡ Status.BadScript at why → IfSome (S.left source.old) (λ bytes. IsFaulty bytes at why)) }
    ensures unfit { IfErr result (λ status. (at : ScriptPlace) (why : ScriptCause) → status ≡ Status.BadScript at why → ¬ IsFine (S.left source.old)) }
{
    let bytes = match read_all(alloc, source, MAX_SCRIPT) {
        Ok(bytes) => bytes,
        Err(ReadRefusal::Failed) => return Err(Status::ReadFault),
        Err(ReadRefusal::TooLong) => {
            return Err(Status::BadScript {
                place: ScriptPlace::Whole,
                cause: ScriptCause::TooLong,
            });
        }
        Err(ReadRefusal::Memory) => return Err(Status::Memory),
    };
    let script = match read_script(alloc, bytes.as_slice()) {
        Ok(script) => script,
        Err(ScriptFault::Bad { place, cause }) => return Err(Status::BadScript { place, cause }),
        Err(ScriptFault::Memory) => return Err(Status::Memory),
    };
    if !is_built(&script) {
        return Err(Status::BadScript {
            place: ScriptPlace::Whole,
            cause: ScriptCause::NotBuilt,
        });
    }
    Ok(script)
}

/// Runs a script in an order of lanes over the first of the parts, and writes its report.
fn replay<K: Sink, M: MiniportCalls, P: ProtocolCalls, F: FilterCalls>(
    alloc: Global,
    script: &Script,
    order: &[u8],
    sink: &mut K,
    parts: &mut Vec<StackDrivers<M, P, F>>,
) -> Status
    requires built { is_built script.now ≡ true }
    requires idle { All AreIdle (all_handed M.state P.state F.state parts.old.items) }
    ensures late { IsTrue (ends_replay result) }
    ensures lacks { (k : ℕ) → result ≡ Status.NoParts k → (k ≡ 0) × LacksFirst script.now (all_handed M.state P.state F.state parts.old.items) }
    ensures fault { result ≡ Status.WriteFault → Rose (K.faults sink.old) (K.faults sink.new) }
    ensures done { result ≡ Status.Done → Replayed AddsAll script.now order.now (all_handed M.state P.state F.state parts.old.items) (all_handed M.state P.state F.state parts.new.items) (K.holds sink.old) (K.holds sink.new) }
    ensures cut { result ≡ Status.WriteFault → Replayed AddsPrefix script.now order.now (all_handed M.state P.state F.state parts.old.items) (all_handed M.state P.state F.state parts.new.items) (K.holds sink.old) (K.holds sink.new) }
    ensures memory { result ≡ Status.Memory → (K.holds sink.new ≡ K.holds sink.old) ⊎ Replayed AddsPrefix script.now order.now (all_handed M.state P.state F.state parts.old.items) (all_handed M.state P.state F.state parts.new.items) (K.holds sink.old) (K.holds sink.new) }
    ensures given_up { result ≡ Status.Memory → (parts.new.items ≡ parts.old.items) ⊎ GivesUp script.now.stacks (all_handed M.state P.state F.state parts.old.items) (all_handed M.state P.state F.state parts.new.items) }
    ensures silent { (k : ℕ) → result ≡ Status.NoParts k → K.holds sink.new ≡ K.holds sink.old }
    ensures kept { (k : ℕ) → result ≡ Status.NoParts k → parts.new.items ≡ parts.old.items }
    ensures idle { All AreIdle (all_handed M.state P.state F.state parts.new.items) }
    ensures complete { ¬ LacksFirst script.now (all_handed M.state P.state F.state parts.old.items) → ¬ Rose (K.faults sink.old) (K.faults sink.new) → IsDone result }
    ensures lacking { LacksFirst script.now (all_handed M.state P.state F.state parts.old.items) → IsWanting result }
{
    let journal = match run_first(alloc, script, order, parts) {
        Ok(journal) => journal,
        Err(status) => return status,
    };
    match write_flat_report(alloc, sink, std::slice::from_ref(&journal), &[]) {
        Ok(()) => Status::Done,
        Err(ReportFault::Failed) => Status::WriteFault,
        Err(ReportFault::Memory) => Status::Memory,
    }
}

/// Runs a script in an order of lanes over the first of the parts, where there is one.
fn run_first<M: MiniportCalls, P: ProtocolCalls, F: FilterCalls>(
    alloc: Global,
    script: &Script,
    order: &[u8],
    parts: &mut Vec<StackDrivers<M, P, F>>,
) -> Result<FlatJournal, Status>
    requires built { is_built script.now ≡ true }
    requires idle { All AreIdle (all_handed M.state P.state F.state parts.old.items) }
    ensures run { IfOk result (λ journal. IsRun script.now order.now journal.head journal.turns) }
    ensures back { IfOk result (λ journal. AreBack script.now.stacks journal.turns (all_handed M.state P.state F.state parts.old.items) (all_handed M.state P.state F.state parts.new.items)) }
    ensures enough { OnOk result (¬ LacksFirst script.now (all_handed M.state P.state F.state parts.old.items)) }
    ensures wanting { IfErr result (λ status. IsWanting status) }
    ensures lacks { IfErr result (λ status. (k : ℕ) → status ≡ Status.NoParts k → LacksFirst script.now (all_handed M.state P.state F.state parts.old.items)) }
    ensures kept { IfErr result (λ status. (k : ℕ) → status ≡ Status.NoParts k → parts.new.items ≡ parts.old.items) }
    ensures given_up { IfErr result (λ status. status ≡ Status.Memory → (parts.new.items ≡ parts.old.items) ⊎ OthersAreLeft script.now.stacks (all_handed M.state P.state F.state parts.old.items) (all_handed M.state P.state F.state parts.new.items)) }
    ensures idle { All AreIdle (all_handed M.state P.state F.state parts.new.items) }
{
    if parts.is_empty() {
        return Err(Status::NoParts { stack: 0 });
    }
    match run_over(alloc, script, order, &mut parts[0]) {
        Ok(journal) => Ok(journal),
        Err(RunFault::NoParts) => Err(Status::NoParts { stack: 0 }),
        Err(RunFault::Memory) => Err(Status::Memory),
        Err(RunFault::Lost) => Err(Status::Memory),
    }
}

/// Runs a script in an order of lanes over a stack's drivers, which come back to where they were, unless they are lost for
/// want of memory: then the others stand there.
fn run_over<M: MiniportCalls, P: ProtocolCalls, F: FilterCalls>(
    alloc: Global,
    script: &Script,
    order: &[u8],
    parts: &mut StackDrivers<M, P, F>,
) -> Result<FlatJournal, RunFault>
    requires built { is_built script.now ≡ true }
    requires idle { AreIdle (handed_of M.state P.state F.state parts.old) }
    ensures run { IfOk result (λ journal. IsRun script.now order.now journal.head journal.turns) }
    ensures back { IfOk result (λ journal. ComesBack script.now.stacks journal.turns (handed_of M.state P.state F.state parts.old) (handed_of M.state P.state F.state parts.new)) }
    ensures enough { OnOk result (¬ LacksDrivers script.now.stacks (handed_of M.state P.state F.state parts.old)) }
    ensures lacks { IfErr result (λ e. e ≡ RunFault.NoParts → LacksDrivers script.now.stacks (handed_of M.state P.state F.state parts.old)) }
    ensures unchanged { IfErr result (λ e. e ≢ RunFault.Lost → parts.new ≡ parts.old) }
    ensures left { IfErr result (λ e. e ≡ RunFault.Lost → LeavesDrivers script.now.stacks (handed_of M.state P.state F.state parts.old) (handed_of M.state P.state F.state parts.new)) }
    ensures idle { AreIdle (handed_of M.state P.state F.state parts.new) }
{
    let first = std::mem::replace(parts, no_parts(alloc));
    match run_script(alloc, script, order, first) {
        Ok((first, journal)) => {
            put_back(parts, first);
            Ok(journal)
        }
        Err((first, fault)) => {
            put_back(parts, first);
            Err(fault)
        }
    }
}

fn no_parts<M, P, F>(alloc: Global) -> StackDrivers<M, P, F> {
    StackDrivers {
        miniports: Vec::new(alloc),
        protocols: Vec::new(alloc),
        shelf: Vec::new(alloc),
    }
}

/// Puts drivers where none stand.
fn put_back<M: MiniportCalls, P: ProtocolCalls, F: FilterCalls>(
    parts: &mut StackDrivers<M, P, F>,
    first: StackDrivers<M, P, F>,
)
    ensures { parts.new ≡ first }
{
    let StackDrivers {
        miniports: _,
        protocols: _,
        shelf: _,
    } = std::mem::replace(parts, first);
}
