//! Laws of folders that people keep, each the contract of a function that does nothing.

ghost use Rattle.wef_deployments.specs.Folders.{FolderRunsAreDeeds};
ghost use Rattle.wef_deployments.specs.Hearing.{DeedsKeep};
ghost use Rattle.wef_deployments.specs.Printed.{EventsPrintHistory, LinesNameRecords};
ghost use Rattle.wef_deployments.specs.Sources.{SourceDeedsKeep};
ghost use Rattle.wef_deployments.specs.Worlds.{DeploymentsAreSafe};

/// What is kept of a world of schedules stays kept behind each deed of a collector, done or cut off, where
/// what reaches it for a declared source is what that source sent.
pub fn deeds_keep()
    ensures { DeedsKeep }
{}

/// So it does behind each deed of a declared source, done or cut off, and behind the end of a run, where the
/// offers and acknowledgements that it takes are ones that the collector gave to it.
pub fn source_deeds_keep()
    ensures { SourceDeedsKeep }
{}

/// Each run of `write` has an account: how far it came. A run of `write`, `forward` or `serve` over the folder
/// of a source did its deeds, one after the other, and each event that it wrote is the one that its text says.
pub fn folder_runs_are_deeds()
    ensures { FolderRunsAreDeeds }
{
    wef_commands::laws::numbers_told_are_written();
}

/// Deployments are safe. Take one collector's folder, in which `add`, `remove`, `list`, `show`, `events`,
/// `status`, `collect` and `request` are run, and any number of sources' folders, in which `write`, `forward`
/// and `serve` are, all of them new at first, with at most one run at a time over each. Whatever the order,
/// and wherever runs are killed: what stands in the collector's store is, for each of its subscriptions and
/// each source, up to the bookmark, exactly the matching events that this source's `write` committed, once
/// and in order, but for marked records that were overwritten or too large; and each batch that was
/// acknowledged to a source lies within that bookmark. What must be so of the outside stands with the deeds
/// (`Hears`, `HearsAs`).
pub fn deployments_are_safe()
    ensures { DeploymentsAreSafe }
{}

/// In a deployment, what `events NAME SOURCE CHANNEL` prints is exactly the matching events of the source's
/// history up to the bookmark, each once and in order, but for those under marks, which were overwritten or
/// are too large; and a line `CHANNEL NUMBER` of `write` names the record of that number in the channel's
/// history.
pub fn what_is_printed_is_the_history()
    ensures events { EventsPrintHistory }
    ensures lines { LinesNameRecords }
{
    wef_commands::laws::texts_are_of_rows();
    wef_runs::laws::write_tells_the_history();
}
