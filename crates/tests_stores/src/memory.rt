//! Stores in memory.

use crate::schedules::push_over;
use crate::steps::push_step;
use std::alloc::AllocError;
use wef_base::Text;
use wef_keeper::MemKeeper;

/// What comes of the steps of a line in a store in memory, and whether a commit is armed behind each that
/// arms or ends one.
pub(crate) fn push_in_memory(shown: &mut Text, line: &str) -> Result<(), AllocError> {
    let mut keeper = MemKeeper::new(shown.alloc());
    if line.starts_with("collector ") {
        let (_, pushed) = push_over(shown, keeper, line);
        return pushed;
    }
    push_steps_to(shown, &mut keeper, line)
}

fn push_steps_to(shown: &mut Text, keeper: &mut MemKeeper, line: &str) -> Result<(), AllocError> {
    for (place, step) in line.split("; ").enumerate() {
        shown.push_str(if place > 0 { "; " } else { "" })?;
        push_step_to(shown, keeper, step)?;
    }
    Ok(())
}

fn push_step_to(shown: &mut Text, keeper: &mut MemKeeper, step: &str) -> Result<(), AllocError> {
    match step {
        "fail before" => keeper.fail_next(false),
        "fail after" => keeper.fail_next(true),
        "calm" => keeper.calm(),
        "crash" => keeper.crash(),
        _ => return push_step(shown, keeper, step),
    }
    shown.push_str(if keeper.is_armed() {
        "armed"
    } else {
        "not armed"
    })
}
