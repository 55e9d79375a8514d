//! Reads the event in each line of its input. Where its word is `judge` it also has each again from its
//! channel, its number and its text, as a report has a row that is held. It prints how many these were.
#![tactic(auto)]

use std::{env, io};
use wef_base::Text;
use wef_event::{Event, read_event};

fn main(rt: HostRuntime) -> io::Result<()> {
    let alloc = rt.alloc();
    let judges = env::args(&rt)?.skip(1).any(|word| word.as_str() == "judge");
    let (mut read, mut judged) = (0_u64, 0_u64);
    for line in rt.lines(alloc) {
        let text = Text::from_str(alloc, line?.as_str())?;
        let event = read_event(&text).map_err(|_| io::ErrorKind::InvalidData)?;
        read = read.saturating_add(1);
        if judges && is_held(event)? {
            judged = judged.saturating_add(1);
        }
    }
    println!(rt; "{read} read, {judged} judged")
}

/// Whether the event is one of its own channel, number and text.
fn is_held(event: Event) -> io::Result<bool> {
    let (channel, number, text) = event.into_parts();
    Ok(Event::of_text(&channel, number, &text)?.is_some())
}
