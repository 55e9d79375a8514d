//! Laws of leases, each the contract of a function that does nothing.

ghost use Rattle.wef_collector_leases.specs.Laws.{LeasesAreChanged, NextIsFirst};

/// The source that is to be asked next is, by its name, the first at which something is due and for
/// which no request waits, of the first subscription that has one; and there is none exactly where
/// no subscription has.
pub fn next_is_first()
    ensures { NextIsFirst }
{}

/// A lease that is put is the one that is kept, and one that ends isn't kept any more; each other row
/// stays. Where all leases end, none is kept, and no other row goes.
pub fn leases_are_changed()
    ensures { LeasesAreChanged }
{}
