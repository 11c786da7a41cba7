//! What a halt is refused for.
ghost use Rattle.std.specs.Prelude.{◌≡◌, ◌<◌, ◌^◌, IfSome, count_by, length};
ghost use Rattle.stack_rules.specs.Pauses.{halt_items, statuses_away};
ghost use Rattle.driver_tray.specs.Tray.{is_status_away};
ghost use Rattle.halt_work.specs.Halted.{halt_refusal};

use driver_tray::Tray;
use journal_types::Refusal;
use ndis_base::Phase;

const FAR: usize = 1 << 60;

/// How many statuses are on their way, and requests aren't done; None where there are 2 to the power of 60 of
/// either, which no memory can hold.
pub fn halt_count(tray: &Tray) -> Option<u64>
    requires { count_by is_status_away tray.now.queue ≡ statuses_away tray.now.net }
    ensures { IfSome result (λ n. n ≡ halt_items tray.now.net) }
{
    let statuses = tray.statuses_away();
    let requests = tray.requests().len();
    if statuses >= FAR || requests >= FAR {
        return None;
    }
    Some((statuses + requests) as u64)
}

/// What a halt is refused for: the phase, or what is left to do.
pub fn halt_refusal(tray: &Tray, left: u64) -> Option<Refusal>
    requires { left ≡ halt_items tray.now.net }
    ensures { result ≡ halt_refusal tray.now.net }
{
    match tray.phase() {
        Phase::Paused => {
            if left == 0 {
                None
            } else {
                Some(Refusal::Busy { n: left })
            }
        }
        phase => Some(Refusal::WrongPhase { phase }),
    }
}

/// The number of the filter that is attached next fits 64 bits.
pub fn next_fits(tray: &Tray)
    ensures { tray.now.net.next.filter < 2 ^ 64 }
{
    let _next = tray.next_filter();
}
