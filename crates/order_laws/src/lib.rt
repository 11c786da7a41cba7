//! How many filters a stack has after every sound journal. There is no code here: each function's `ensures`
//! is a law, proved once for all journals.
#![tactic(auto)]

ghost use Rattle.order_laws.specs.Orders.{EachIsAsMany, EachOrderFits};

/// After every sound journal at most as many filters stand in the order as a stack may have.
pub fn orders_fit()
    ensures { EachOrderFits }
{}

/// After every sound journal as many filters are attached as stand in the order, and none while the stack
/// is Halted.
pub fn filters_are_as_many()
    ensures { EachIsAsMany }
{}
