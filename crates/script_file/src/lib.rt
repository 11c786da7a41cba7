//! Scripts read from their texts, and written.
#![tactic(auto)]

pub mod whole;

pub use crate::whole::read_script;
pub use script_types::{
    Call, CallKind, Calls, FilterSetup, FilterSetups, MiniportSetup, Script, ScriptCause,
    ScriptFault, ScriptPlace, StackSetup, Stacks,
};
pub use script_writing::write_script;
