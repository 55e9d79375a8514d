//! Laws of what the commands do by the rows that stood before them, each the contract of a function that
//! does nothing.

ghost use Rattle.wef_running.specs.ByRows.{CollectsByRows, FailedLinksAreCounted, ForwardsByRows};
ghost use Rattle.wef_running.specs.Clocks.{CollectsAlike};

/// Where the rows before `collect` are told, and what an opening may find behind it: each connection is
/// served over the rows that the one before it left, from the started collector's on. Each request got
/// the answer that the rows give, or, where the store failed, one that says so. Each batch that was
/// taken lies within the bookmark of the rows behind the run. Over rows of their form no more answers
/// say that the store failed than its faults were counted.
pub fn collecting_goes_by_rows()
    ensures { CollectsByRows }
{}

/// Where the rows before `forward` are told, and what an opening may find behind it: its source changes
/// them once, as it starts. Each batch that was sent is the one that these rows and the session give,
/// under the boot number that stands in them, and each heartbeat was sent where they give no item.
pub fn forwarding_goes_by_rows()
    ensures { ForwardsByRows }
{}

/// Where `forward` says that its link failed, the link's count of faults rose in this run.
pub fn failed_links_are_counted()
    ensures { FailedLinksAreCounted }
{}

/// Of `collect` the clock decides the moments at which sources were heard, and nothing else: two runs of so
/// many connections at an address, over the same bytes and over rows that are alike, send the same in each
/// connection, whatever their clocks tell, and leave rows that are alike. This holds of runs that are done
/// over rows that are told and of their form, where neither the store nor the front failed; that memory
/// wasn't short follows. One choice is left, which no clock decides: a head that is cut off, and that
/// nothing could make good, may be refused, or end its connection as one that was cut short.
pub fn collecting_is_alike_by_any_clock()
    ensures { CollectsAlike }
{}
