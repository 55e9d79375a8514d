//! The lines of a subscription's sources, as they are written.

ghost use Rattle.std.specs.List.{flat_map};
ghost use Rattle.std.specs.Prelude.{◌≡◌, ◌+◌, ◌≤◌, ◌<◌, ◌++◌, List, length, option_copied, IfOk, OnOk};
ghost use Rattle.wef_collector_statuses.specs.Lines as spec;
ghost use Rattle.wef_collector_statuses.specs.Statuses.{status_line, status_word};
ghost use Rattle.wef_keeper.specs.declared.keys.Row as the_row;

use std::alloc::AllocError;
use wef_base::Text;
use wef_base::moments::Moment;
use wef_heartbeat::Status;
use wef_keeper::Row;

/// What the lines of a subscription have in common.
#[derive(Drop)]
pub struct Telling {
    pub sub: Text,
    /// The heartbeat of the subscription.
    pub heartbeat: u64,
    /// When it is told.
    pub moment: Moment,
}

impl Telling {
    /// Adds the lines of sources by the rows that say when they were heard, and of the listed ones in front of
    /// these and between them, which weren't. It gives the listed ones that are left.
    pub fn push_rows<'a>(
        &self,
        text: &mut Text,
        listed: &'a [Text],
        rows: &[Row],
    ) -> Result<&'a [Text], AllocError>
        ensures text { IfOk result (λ left. (more : List the_row.Row) → text.new ++ spec.told self.now more left.now ≡ text.old ++ spec.told self.now (rows.now ++ more) listed.now) }
        ensures grows { OnOk result (length text.old + length rows.now ≤ length text.new) }
    {
        let mut left = listed;
        for row in rows {
            left = self.push_row(text, left, row)?;
        }
        Ok(left)
    }

    fn push_row<'a>(
        &self,
        text: &mut Text,
        listed: &'a [Text],
        row: &Row,
    ) -> Result<&'a [Text], AllocError>
        ensures text { OnOk result (text.new ≡ text.old ++ spec.row_lines self.now listed.now row.now) }
        ensures left { IfOk result (λ left. left.now ≡ spec.names_behind row.now.key.source listed.now) }
        ensures grows { OnOk result (length text.old < length text.new) }
    {
        let left = self.push_below(text, listed, &row.key.source)?;
        self.push_line(text, &row.key.source, Moment::of(row.value))?;
        Ok(without(&row.key.source, left))
    }

    /// Adds the lines of the listed sources below another one, and gives those that are left.
    fn push_below<'a>(
        &self,
        text: &mut Text,
        listed: &'a [Text],
        source: &Text,
    ) -> Result<&'a [Text], AllocError>
        ensures text { OnOk result (text.new ≡ text.old ++ flat_map (spec.never_line self.now) (spec.names_below source.now listed.now)) }
        ensures left { IfOk result (λ left. left.now ≡ spec.names_from source.now listed.now) }
    {
        let mut left = listed;
        while let Some((name, more)) = left.split_first() {
            if !is_below(source, name) {
                return Ok(left);
            }
            self.push_line(text, name, None)?;
            left = more;
        }
        Ok(left)
    }

    /// Adds the lines of listed sources that weren't heard.
    pub fn push_never(&self, text: &mut Text, listed: &[Text]) -> Result<(), AllocError>
        ensures { OnOk result (text.new ≡ text.old ++ flat_map (spec.never_line self.now) listed.now) }
    {
        for name in listed {
            self.push_line(text, name, None)?;
        }
        Ok(())
    }

    /// Adds the line of a source, by when it was heard, if it was at all.
    fn push_line(
        &self,
        text: &mut Text,
        source: &Text,
        heard: Option<Moment>,
    ) -> Result<(), AllocError>
        ensures { OnOk result (text.new ≡ text.old ++ spec.line_at self.now source.now heard) }
    {
        let status = Status::of(heard, self.heartbeat, self.moment);
        push_status_line(text, &self.sub, source, status)
    }
}

fn is_below(source: &Text, name: &Text) -> bool
    ensures { result ≡ spec.is_below source.now name.now }
{
    name.cmp(source).is_lt()
}

/// Listed names without the first, where that is the source's.
fn without<'a>(source: &Text, listed: &'a [Text]) -> &'a [Text]
    ensures { result.now ≡ spec.without source.now listed.now }
{
    let Some((name, more)) = listed.split_first() else {
        return listed;
    };
    if *name == *source { more } else { listed }
}

#[tactic(auto, unfolding(crate::specs::Statuses::status_line))]
fn push_status_line(
    text: &mut Text,
    sub: &Text,
    source: &Text,
    status: Status,
) -> Result<(), AllocError>
    ensures { OnOk result (text.new ≡ text.old ++ status_line sub.now source.now status) }
{
    text.push_str("status ")?;
    text.push_printed(sub)?;
    text.push_str(" ")?;
    text.push_printed(source)?;
    text.push_str(" ")?;
    text.push_str(word_of(status))?;
    text.push_str("\n")?;
    Ok(())
}

fn word_of(status: Status) -> &'static str
    ensures { result.now ≡ status_word status }
{
    match status {
        Status::Active => "active",
        Status::Inactive => "inactive",
        Status::Never => "never",
    }
}
