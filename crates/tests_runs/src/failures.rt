//! Commits that fail, each in turn.

use crate::outcomes::replayed;
use std::alloc::{AllocError, Global};
use tests_tasks::escapes::escaped;
use tests_tasks::runs::Runs;
use wef_base::Text;

/// A schedule in which one source writes 9 events; each of its lines comes to a commit, or to none.
const LINES: [&str; 30] = [
    "subscribe base 2 512000 900000 all application\n",
    "source pc1 100\n",
    "write pc1 application 1 4 a\n",
    "write pc1 application 1 4 a\n",
    "write pc1 application 1 4 a\n",
    "ask pc1\n",
    "back 0\n",
    "back 0\n",
    "poll pc1 base\n",
    "back 0\n",
    "back 0\n",
    "write pc1 application 1 4 a\n",
    "poll pc1 base\n",
    "back 0\n",
    "back 1\n",
    "back 0\n",
    "write pc1 application 1 4 a\n",
    "crash pc1\n",
    "ask pc1\n",
    "back 0\n",
    "back 0\n",
    "poll pc1 base\n",
    "write pc1 application 1 4 a\n",
    "crash collector\n",
    "back 0\n",
    "back 0\n",
    "write pc1 application 1 4 a\n",
    "poll pc1 base\n",
    "back 0\n",
    "write pc1 application 1 4 a\n",
];

/// Whatever was armed is over; the source writes its last event, asks again, and sends all that it has.
const SETTLED: &str =
    "calm\nsubscribe base 2 512000 900000 all application\nwrite pc1 application 1 4 a\nask pc1\nback 0\nback 0\npoll pc1 base\nback 0\nback 0\npoll pc1 base\nback 0\nback 0\npoll pc1 base\nback 0\nback 0\npoll pc1 base\nback 0\nback 0\npoll pc1 base\nback 0\nback 0\nshow\n";

/// What is kept once the schedule is settled, for each line but the first two with something armed in
/// front of it.
pub(crate) fn push_armed(shown: &mut Text, armed: &str) -> Result<(), AllocError> {
    let alloc = shown.alloc();
    let mut runs = Runs::new(alloc);
    for at in 2..LINES.len() {
        runs.add(shown, at as u64, kept_of(alloc, at, armed)?)?;
    }
    Ok(())
}

/// The end of the report, behind the words of its one channel.
fn kept_of(alloc: Global, at: usize, armed: &str) -> Result<Text, AllocError> {
    let ran = replayed(alloc, armed_before(alloc, at, armed)?.as_str().as_bytes())?;
    let report = str::from_utf8(ran.out.taken()).unwrap_or("no UTF-8");
    let (_, kept) = report
        .split_once("  channel ")
        .unwrap_or((report, "nothing"));
    escaped(&Text::from_str(alloc, kept)?)
}

/// The schedule with something armed in front of one of its lines, and settled.
fn armed_before(alloc: Global, at: usize, armed: &str) -> Result<Text, AllocError> {
    let mut schedule = Text::new(alloc);
    for (index, line) in LINES.iter().enumerate() {
        if index == at {
            schedule.push_str(armed)?;
            schedule.push('\n')?;
        }
        schedule.push_str(line)?;
    }
    schedule.push_str(SETTLED)?;
    Ok(schedule)
}
