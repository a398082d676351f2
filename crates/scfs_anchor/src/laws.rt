//! What the steps come to over tuples that stand for a tree. The functions do nothing.

ghost use Rattle.scfs_anchor.specs.Holding.{EmptyHolds, HoldsOn, StepsServeAlike};

/// No tuples hold the empty tree of the machine.
pub fn no_tuples_hold_the_empty_tree()
    ensures { EmptyHolds }
{}

/// Tuples that hold the tree of the machine at a moment hold it later.
pub fn tuples_hold_the_tree_later()
    ensures { HoldsOn }
{}

/// Over tuples that hold the tree of the machine, a step of an agent does what it does on the machine: the tuples left hold the tree
/// left, the reply shows what the step came to, and its numbers fit, where the end of a lock that is put then fits.
pub fn steps_serve_as_on_the_machine()
    ensures { StepsServeAlike }
{}
