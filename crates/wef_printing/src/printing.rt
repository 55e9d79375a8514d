//! What the lines of a schedule print.

ghost use Rattle.std.specs.Prelude.{◌≡◌, true, Some, IfOk, IfErr, OnOk};
ghost use Rattle.wef_collector_rows.specs.Answers as answers;
ghost use Rattle.wef_collector_rows.specs.Forms.{AreFormed};
ghost use Rattle.wef_collector_rows.specs.Held.{held_after};
ghost use Rattle.wef_collector_rows.specs.Standing.{standing};
ghost use Rattle.wef_lines.specs.Printed.{events_text};
ghost use Rattle.wef_machine.specs.Printed as spec;

use std::alloc::{AllocError, Global};
use wef_base::{ChannelName, SourceName, SubId, Text};
use wef_collector::{Collector, CollectorFault};
use wef_collector_reports::held::last_number_of;
use wef_ids::FaultName;
use wef_keeper::MemKeeper;
use wef_lines::{name_line, push_events};
use wef_machine::Fate;

/// How many events are read at once.
const PAGE: u32 = 256;

/// The answer to a batch.
#[tactic(auto, unfolding(wef_machine::specs::Printed::batch_text))]
pub fn batch_line(sub: &SubId, source: &SourceName, answer: &str) -> Result<Text, AllocError>
    ensures { IfOk result (λ text. text ≡ spec.batch_text sub.now source.now answer.now) }
{
    let mut text = Text::new(sub.as_text().alloc());
    text.push_str("batch ")?;
    text.push_printed(sub.as_text())?;
    text.push_str(" ")?;
    text.push_printed(source.as_text())?;
    text.push_str(" ")?;
    text.push_str(answer)?;
    text.push_str("\n")?;
    Ok(text)
}

/// Why an end did nothing: it was stopped in a commit, or the commit failed.
pub fn fate_word(fate: Fate) -> &'static str
    ensures { result.now ≡ spec.fate_word fate }
{
    match fate {
        Fate::Done => "",
        Fate::Failed => "failed",
        Fate::Stopped => "stopped",
    }
}

/// What became of an end that isn't done.
pub fn fate_line(alloc: Global, fate: Fate, name: &str) -> Result<Text, AllocError>
    ensures { IfOk result (λ text. text ≡ spec.fate_line fate name.now) }
{
    let name = Text::from_str(alloc, name)?;
    name_line(fate_word(fate), &name)
}

/// A fault as the answer to a batch.
#[tactic(auto, unfolding(wef_machine::specs::Printed::fault_answer))]
pub fn fault_answer(alloc: Global, name: &FaultName) -> Result<Text, AllocError>
    ensures { IfOk result (λ text. text ≡ spec.fault_answer name.now) }
{
    let mut text = Text::from_str(alloc, "fault ")?;
    text.push_str(name.as_str())?;
    Ok(text)
}

/// A word and the names of a source and a subscription.
#[tactic(auto, unfolding(wef_machine::specs::Printed::pair_line))]
pub fn pair_line(word: &str, first: &Text, second: &Text) -> Result<Text, AllocError>
    ensures { IfOk result (λ text. text ≡ spec.pair_line word.now first.now second.now) }
{
    let mut text = Text::new(first.alloc());
    text.push_str(word)?;
    text.push_str(" ")?;
    text.push_printed(first)?;
    text.push_str(" ")?;
    text.push_printed(second)?;
    text.push_str("\n")?;
    Ok(text)
}

/// A record that was written.
#[tactic(auto, unfolding(wef_machine::specs::Printed::wrote_line))]
pub fn wrote_line(
    source: &SourceName,
    channel: &ChannelName,
    number: u64,
) -> Result<Text, AllocError>
    ensures { IfOk result (λ text. text ≡ spec.wrote_line source.now channel.now number) }
{
    let mut text = Text::new(source.as_text().alloc());
    text.push_str("wrote ")?;
    text.push_printed(source.as_text())?;
    text.push_str(" ")?;
    text.push_printed(channel.as_text())?;
    text.push_str(" ")?;
    text.push_number(number)?;
    text.push_str("\n")?;
    Ok(text)
}

/// An ask that was sent.
#[tactic(auto, unfolding(wef_machine::specs::Printed::sent_ask_line))]
pub fn sent_ask_line(number: u64, source: &SourceName) -> Result<Text, AllocError>
    ensures { IfOk result (λ text. text ≡ spec.sent_ask_line number source.now) }
{
    let mut text = Text::new(source.as_text().alloc());
    text.push_str("sent ")?;
    text.push_number(number)?;
    text.push_str(" ask ")?;
    text.push_printed(source.as_text())?;
    text.push_str("\n")?;
    Ok(text)
}

/// A message about a subscription that was sent, and the word for what it is.
#[tactic(auto, unfolding(wef_machine::specs::Printed::sent_line))]
pub fn sent_line(
    number: u64,
    word: &str,
    source: &SourceName,
    sub: &Text,
) -> Result<Text, AllocError>
    ensures { IfOk result (λ text. text ≡ spec.sent_line number word.now source.now sub.now) }
{
    let mut text = Text::new(source.as_text().alloc());
    text.push_str("sent ")?;
    text.push_number(number)?;
    text.push_str(" ")?;
    text.push_str(word)?;
    text.push_str(" ")?;
    text.push_printed(source.as_text())?;
    text.push_str(" ")?;
    text.push_printed(sub)?;
    text.push_str("\n")?;
    Ok(text)
}

/// A message that was taken, and the word for what became of it.
#[tactic(auto, unfolding(wef_machine::specs::Printed::took_line))]
pub fn took_line(alloc: Global, number: u64, word: &str) -> Result<Text, AllocError>
    ensures { IfOk result (λ text. text ≡ spec.took_line number word.now) }
{
    let mut text = Text::new(alloc);
    text.push_str("took ")?;
    text.push_number(number)?;
    text.push_str(" ")?;
    text.push_str(word)?;
    text.push_str("\n")?;
    Ok(text)
}

/// A message that was taken and answered.
#[tactic(auto, unfolding(wef_machine::specs::Printed::answered_line))]
pub fn answered_line(
    alloc: Global,
    number: u64,
    word: &str,
    answer: u64,
) -> Result<Text, AllocError>
    ensures { IfOk result (λ text. text ≡ spec.answered_line number word.now answer) }
{
    let mut text = Text::new(alloc);
    text.push_str("took ")?;
    text.push_number(number)?;
    text.push_str(" ")?;
    text.push_str(word)?;
    text.push_str(" sent ")?;
    text.push_number(answer)?;
    text.push_str("\n")?;
    Ok(text)
}

/// A number that no message has.
#[tactic(auto, unfolding(wef_machine::specs::Printed::no_message_line))]
pub fn no_message_line(alloc: Global, number: u64) -> Result<Text, AllocError>
    ensures { IfOk result (λ text. text ≡ spec.no_message_line number) }
{
    let mut text = Text::new(alloc);
    text.push_str("no message ")?;
    text.push_number(number)?;
    text.push_str("\n")?;
    Ok(text)
}

/// How many sessions a source has by the offers that it took.
#[tactic(auto, unfolding(wef_machine::specs::Printed::adopted_word))]
pub fn adopted_word(alloc: Global, number: u64) -> Result<Text, AllocError>
    ensures { IfOk result (λ text. text ≡ spec.adopted_word number) }
{
    let mut text = Text::new(alloc);
    text.push_str("adopted ")?;
    text.push_number(number)?;
    Ok(text)
}

/// The events that are held of a source's channel, one a line, and at last `end`, read page by
/// page.
#[tactic(auto, unfolding(wef_lines::specs::Printed::events_text))]
pub fn held_text(
    alloc: Global,
    collector: &mut Collector<MemKeeper>,
    sub: &SubId,
    source: &SourceName,
    channel: &ChannelName,
) -> Result<Text, CollectorFault>
    requires formed { AreFormed collector.old.keeper.rows }
    ensures rows { collector.new.keeper.rows ≡ collector.old.keeper.rows }
    ensures memory { collector.new.memory ≡ collector.old.memory }
    ensures known { OnOk result (answers.is_known (standing collector.old.keeper.rows sub.now) ≡ true) }
    ensures text { IfOk result (λ text. text ≡ events_text (held_after collector.old.keeper.rows sub.now source.now channel.now 0)) }
    ensures refusal { IfErr result (λ fault. answers.RefusesUnknown fault (Some collector.old.keeper.rows) sub.now) }
{
    let mut text = Text::new(alloc);
    let mut after = 0;
    loop {
        let page = collector.held_page(sub, source, channel, after, PAGE)?;
        let is_last = page.len() < PAGE as usize;
        after = last_number_of(after, page.as_slice());
        push_events(&mut text, page.as_slice())?;
        if is_last {
            text.push_str("end\n")?;
            return Ok(text);
        }
    }
}
