//! The lines of names and of events.

ghost use Rattle.std.specs.List.{flat_map};
ghost use Rattle.std.specs.Prelude.{◌≡◌, ◌++◌, IfOk, OnOk};
ghost use Rattle.wef_lines.specs.Printed as spec;

use std::alloc::AllocError;
use wef_base::Text;
use wef_event::Event;

/// A word and a name.
#[tactic(auto, unfolding(crate::specs::Printed::name_line))]
pub fn name_line(word: &str, name: &Text) -> Result<Text, AllocError>
    ensures { IfOk result (λ text. text ≡ spec.name_line word.now name.now) }
{
    let mut text = Text::new(name.alloc());
    text.push_str(word)?;
    text.push_str(" ")?;
    text.push_printed(name)?;
    text.push_str("\n")?;
    Ok(text)
}

/// Appends events, one a line.
pub fn push_events(text: &mut Text, events: &[Event]) -> Result<(), AllocError>
    ensures { OnOk result (text.new ≡ text.old ++ flat_map spec.event_line events.now) }
{
    for event in events {
        push_event(text, event)?;
    }
    Ok(())
}

/// Appends an event.
#[tactic(auto, unfolding(crate::specs::Printed::event_line))]
fn push_event(text: &mut Text, event: &Event) -> Result<(), AllocError>
    ensures { OnOk result (text.new ≡ text.old ++ spec.event_line event.now) }
{
    text.push_str("event ")?;
    text.push_number(event.number)?;
    text.push_str(" ")?;
    text.push_str(event.text.as_str())?;
    text.push_str("\n")?;
    Ok(())
}
