//! One configuration, of each sound journal. There is no code here: the function's `ensures` is a law,
//! proved once for all journals.
#![tactic(auto)]

ghost use Rattle.configuration_laws.specs.Up.{EachHasOneConfiguration};

/// Each list is issued in its root's configuration; what is on a wire, taken down to another stack or
/// delivered is the root's frames, as the filters of that configuration make them.
pub fn one_configuration()
    ensures { EachHasOneConfiguration }
{}
