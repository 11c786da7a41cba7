//! The names of a script's calls.
ghost use Rattle.std.specs.Prelude.{◌≡◌, Ok, Err};
ghost use Rattle.script_forms.specs.Call.{word_text, call_words};
ghost use Rattle.script_forms.specs.Results.{Gives};
ghost use Rattle.script_forms.specs.Values.{named};

use crate::parts::Trouble;
use script_types::ScriptCause;

/// What a call is named.
#[derive(Clone, Copy, Debug, PartialEq, Eq)]
pub enum CallWord {
    Send,
    Indicate,
    Lend,
    GiveBack,
    Cancel,
    Ask,
    Status,
    Transmit,
    Pump,
    Drain,
    BeginPause,
    PauseNext,
    RestartNext,
    Insert,
    Remove,
    Replace,
    Relay,
}

/// Where a virtual miniport stands: the stack below it, the mux binding there, and its VLAN.
#[derive(Clone, Copy, Debug, PartialEq, Eq)]
pub struct Link {
    pub lower: u8,
    pub binding: u32,
    pub vlan: u16,
}

/// The call of this name.
pub fn word_of_name(text: &str) -> Result<CallWord, Trouble>
    ensures { Gives result (named word_text call_words text.now) }
{
    match text {
        "send" => Ok(CallWord::Send),
        "indicate" => Ok(CallWord::Indicate),
        "lend" => Ok(CallWord::Lend),
        "giveback" => Ok(CallWord::GiveBack),
        "cancel" => Ok(CallWord::Cancel),
        "ask" => Ok(CallWord::Ask),
        "status" => Ok(CallWord::Status),
        "transmit" => Ok(CallWord::Transmit),
        "pump" => Ok(CallWord::Pump),
        "drain" => Ok(CallWord::Drain),
        "begin_pause" => Ok(CallWord::BeginPause),
        "pause_next" => Ok(CallWord::PauseNext),
        "restart_next" => Ok(CallWord::RestartNext),
        "insert" => Ok(CallWord::Insert),
        "remove" => Ok(CallWord::Remove),
        "replace" => Ok(CallWord::Replace),
        "relay" => Ok(CallWord::Relay),
        _ => Err(Trouble::Bad(ScriptCause::Range)),
    }
}
