//! Calls of both ends that no command makes or that come to limits: the window of a log, how often a source was
//! started, what a collector subscribes at a source, which source a collector is to ask next, and what it asks.
#![tactic(auto)]

mod asking;
pub mod leases;
pub mod logs;
pub mod pairs;

use asking::push_asked;
use leases::push_leases;
use logs::{push_starts, push_window};
use pairs::push_pairs;
use std::alloc::AllocError;
use wef_base::Text;

/// Appends the answer to a line of a task, and tells whether the task is one of these.
pub fn push_answer(shown: &mut Text, task: &str, line: &str) -> Result<bool, AllocError> {
    let pushed = match task {
        // The ends of a log's window and the numbers of a page, by `CAPACITY WRITES AFTER MAX`: how many
        // records it keeps, how many are written, behind which number the page begins, and at most how
        // many it has.
        "window" => push_window(shown, line),
        // What a source counts that is started so often.
        "starts" => push_starts(shown, number_of(line)),
        // What a new source answers to these calls, one after the other, with `; ` between them: `accept NAME AT
        // EXPIRES`, 0 for no expiry, and `told` behind it for a collector that is told of the end; `renew NUMBER
        // EXPIRES AT`, `status NUMBER AT` and `cancel NUMBER`, of the session that is named by the id of this number;
        // `offer NAME AT`, `poll NAME AT`, `shut`, and `ids`.
        "leases" => push_leases(shown, line),
        // What the collector is to ask for next, wherever one of these steps asks, with `; ` between them: `live NAME
        // SECONDS SOURCES` and `ended ..` put a subscription that the collector begins, which a renewal prolongs by so
        // many seconds, and `offered ..` one that sources begin; `lease NAME SOURCE END IDENTIFIER` puts a lease, `wait
        // NAME SOURCE` a request that waits; `due AT` asks.
        "pairs" => push_pairs(shown, line),
        // What a new collector asks of sources and answers to these calls, one after the other, with `; ` between them:
        // `live NAME SECONDS SOURCES` adds a subscription that it begins, and `end NAME` ends it; `ask AT` is the next
        // request with the number of its id, and `bytes AT` its text; `subscribed NUMBER AT EXPIRES N`, of a session that
        // is named by the id of number N, `renewed NUMBER AT EXPIRES`, `unsubscribed NUMBER AT` and `refused NUMBER AT`
        // are answers to the request whose id has this number; `gone NAME SOURCE IDENTIFIER` is the end of a session that
        // its source tells; `forget`, `release`; `fail before` and `fail after` make the next commit fail, without its
        // changes or with them.
        "asks" => push_asked(shown, line),
        _ => return Ok(false),
    };
    pushed?;
    Ok(true)
}

fn number_of(word: &str) -> u64 {
    word.parse().unwrap_or(0)
}
