//! Laws of what `request` and `serve` do by the rows that stood before them, each the contract of a function
//! that does nothing.

ghost use Rattle.wef_subscribing.specs.ByRows.{RequestsByRows, ServesByRows};
ghost use Rattle.wef_subscribing.specs.Counts.{FailedFrontsAreCounted, FailedLinksAreCounted};

/// Where the rows before `request` are told, and what an opening may find behind it: each request that was
/// sent is the one that the rows call for, from those of the started collector on, as the answers to those
/// before it left them; and each answer changed them as it says, or, where the store failed, so or not at all.
pub fn requesting_goes_by_rows()
    ensures { RequestsByRows }
{}

/// Where the rows before `serve` are told, and what an opening may find behind it: its source changes them
/// once, as it starts. No answer rests on them. Each batch that was sent is the one that these rows and the
/// session give, under the boot number that stands in them, and each heartbeat was sent where they give no
/// item.
pub fn serving_goes_by_rows()
    ensures { ServesByRows }
{}

/// Where `request` or `serve` says that its link failed, the link's count of faults rose in this run. Where
/// `serve` says, once it listens, that its front failed, the front's count rose by more than the number of
/// connections that failed.
pub fn failures_are_counted()
    ensures links { FailedLinksAreCounted }
    ensures fronts { FailedFrontsAreCounted }
{}
