//! Laws of runs over one store, each the contract of a function that does nothing.

ghost use Rattle.wef_runs.specs.Forwarded.{ForwardsFit};
ghost use Rattle.wef_runs.specs.Laws.{CollectorRunsAreDeeds, RunsAreAccounted, RunsKeepTaken, RunsReadSo, TakenStaysKept};
ghost use Rattle.wef_runs.specs.Recorded.{WritesTellHistory};
ghost use Rattle.wef_runs.specs.Served.{ServesFit};

/// Each run of a command whose store tells the rows before it has an account: what it did to these, for any
/// rows that an opening may find behind it.
#[tactic(auto, using(crate::proofs::Accounts::runs_are_accounted))]
pub fn runs_are_accounted()
    ensures { RunsAreAccounted }
{
    wef_cli::laws::runs_leave_what_they_made();
}

/// What a collector took is kept. A run of one of its commands is a chain of deeds, each of which commits
/// once at most (`deeds`). A document that it read has names that read back, and reads back itself, requests
/// came to hosts that addresses may name, batches are sound, answers to requests can be kept, and moments are
/// before the year 10000 (`read`). Behind it no subscription is forgotten and no bookmark is lower, and each
/// batch that it took, acknowledged or not, lies within the bookmark of its source (`run`). So it is behind any
/// runs, ended or killed anywhere (`runs`). Nothing is asked of whoever sends.
pub fn what_was_taken_is_kept()
    ensures deeds { CollectorRunsAreDeeds }
    ensures read { RunsReadSo }
    ensures run { RunsKeepTaken }
    ensures runs { TakenStaysKept }
{}

/// `write` tells the history. Where the rows before a run are the window of a source's histories, any rows
/// that an opening may find behind it are the window of these with the first so many of the input's events,
/// each the next record of its channel, and each number that was printed names its record. Of one event
/// more at most the line isn't printed, or not whole.
pub fn write_tells_the_history()
    ensures { WritesTellHistory }
{
    wef_commands::laws::numbers_told_are_written();
}

/// What a source sends fits, by `forward` and by `serve`. Where the rows before a run are the window of a
/// source's histories, and the offers that it took, and the wishes of collectors, begin within these: each
/// batch that it sent says of the histories, above where its session stood, just what the session's query
/// selects, and marks as dropped only what is lost. A session stands where its offer or its wish began, and
/// rises by acknowledgements alone, to what the acknowledged message read.
pub fn what_is_sent_fits()
    ensures forward { ForwardsFit }
    ensures serve { ServesFit }
{}
