//! Runs of consecutive numbers, as text.

ghost use Rattle.std.specs.Prelude.{◌≡◌, [], ◌∷◌, ◌++◌, List, None, OnOk, IfOk};
ghost use Rattle.wef_collector_reports.specs.Runs as runs;
ghost use Rattle.wef_collector_reports.specs.declared.runs.Span as the;

use std::alloc::{AllocError, Global};
use wef_base::Text;

/// The numbers from the first to the last.
#[derive(Clone, Copy, PartialEq, Eq)]
pub struct Span {
    pub first: u64,
    pub last: u64,
}

/// Writes the runs that spans make, given in rising order, each behind a space.
#[derive(Drop)]
pub struct RunWriter {
    pub text: Text,
    /// The run that the next span may go on.
    pub running: Option<Span>,
}

impl RunWriter {
    /// No run yet. It takes no memory.
    pub fn new(alloc: Global) -> RunWriter
        ensures text { result.text ≡ [] }
        ensures running { result.running ≡ None }
    {
        RunWriter {
            text: Text::new(alloc),
            running: None,
        }
    }

    /// Takes the next span.
    pub fn add(&mut self, span: Span) -> Result<(), AllocError>
        ensures { OnOk result ((spans : List the.Span) → self.new.text ++ runs.runs_text (runs.runs_from self.new.running spans)
            ≡ self.old.text ++ runs.runs_text (runs.runs_from self.old.running (span ∷ spans))) }
    {
        let Some(run) = self.running else {
            self.running = Some(span);
            return Ok(());
        };
        if touches(run, span) {
            self.running = Some(grown(run, span));
            return Ok(());
        }
        push_run(&mut self.text, run)?;
        self.running = Some(span);
        Ok(())
    }

    /// The text of all runs.
    pub fn finish(self) -> Result<Text, AllocError>
        ensures { IfOk result (λ text. text ≡ self.text ++ runs.runs_text (runs.runs_from self.running [])) }
    {
        let RunWriter { mut text, running } = self;
        if let Some(run) = running {
            push_run(&mut text, run)?;
        }
        Ok(text)
    }
}

fn touches(run: Span, next: Span) -> bool
    ensures { result ≡ runs.touches run next }
{
    u128::from(next.first) <= u128::from(run.last) + 1
}

fn grown(run: Span, next: Span) -> Span
    ensures { result ≡ runs.grown run next }
{
    Span {
        first: run.first,
        last: run.last.max(next.last),
    }
}

fn push_run(text: &mut Text, run: Span) -> Result<(), AllocError>
    ensures { OnOk result (text.new ≡ text.old ++ 32 ∷ runs.run_text run) }
{
    text.push_str(" ")?;
    text.push_number(run.first)?;
    if run.first == run.last {
        return Ok(());
    }
    text.push_str("-")?;
    text.push_number(run.last)
}
