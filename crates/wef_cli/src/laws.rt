//! How runs end, as contracts.

ghost use Rattle.wef_cli.specs.Complete.{BadLinesAreTold, EndsAsCalledFor, FailsWithCause};
ghost use Rattle.wef_cli.specs.Leaving.{RunsLeave};
ghost use Rattle.wef_cli.specs.Due.{AddsAsDue, CollectsAsDue, EventsAsDue, ForwardsAsDue, ListsAsDue, RemovesAsDue, RequestsAsDue, ServesAsDue, ShowsAsDue, StatusesAsDue, WritesAsDue};

/// Where nothing fails, a run of `replay` or `check` ends as its input calls for, or wants memory.
pub fn runs_are_complete()
    ensures { EndsAsCalledFor }
{}

/// Where a line of its input says no event, a run of `write` tells the first such line and writes
/// nothing, or wants memory.
pub fn bad_lines_are_told()
    ensures { BadLinesAreTold }
{}

/// Where nothing fails, and the rows before and behind a run are told and of their form: each command
/// over the store tells the ending that its input and these rows call for, or that it wants memory. Where
/// that is that it is done, its whole output is written, and the rows are what it makes of them.
pub fn endings_are_due()
    ensures add { AddsAsDue }
    ensures remove { RemovesAsDue }
    ensures list { ListsAsDue }
    ensures show { ShowsAsDue }
    ensures events { EventsAsDue }
    ensures status { StatusesAsDue }
    ensures write { WritesAsDue }
    ensures collect { CollectsAsDue }
    ensures forward { ForwardsAsDue }
    ensures request { RequestsAsDue }
    ensures serve { ServesAsDue }
{}

/// A store that tells its rows is said to fail only where its count of faults rose in the run, or where
/// rows aren't of their form.
pub fn failed_stores_have_causes()
    ensures { FailsWithCause }
{}

/// Whatever its ending: any rows that an opening may find after a run are those that its command made of
/// the rows that stood before it, by so many of its calls as were made, each of them whole. Where the
/// store failed in a commit, the last of these may have been made or not.
#[tactic(auto, using(crate::proofs::Leaving::runs_leave))]
pub fn runs_leave_what_they_made()
    ensures { RunsLeave }
{
    wef_commands::laws::no_run_does_more();
    wef_running::laws::collecting_goes_by_rows();
    wef_running::laws::forwarding_goes_by_rows();
    wef_subscribing::laws::requesting_goes_by_rows();
    wef_subscribing::laws::serving_goes_by_rows();
}
