//! Which sources of a subscription are silent, as text.

ghost use Rattle.std.specs.List.{flat_map};
ghost use Rattle.std.specs.Prelude.{◌≡◌, ◌++◌, true, map, IfErr, IfOk, IfSome, OnOk};
ghost use Rattle.wef_collector_reports.specs.Report.{heard_rows};
ghost use Rattle.wef_collector_rows.specs.Answers as answers;
ghost use Rattle.wef_collector_rows.specs.Faults.{collector_store};
ghost use Rattle.wef_collector_rows.specs.Forms.{AreFormed};
ghost use Rattle.wef_collector_rows.specs.Judged.{AreAllFormed, JudgesName};
ghost use Rattle.wef_collector_rows.specs.Standing.{standing};
ghost use Rattle.wef_collector_statuses.specs.Lines.{never_line, told};
ghost use Rattle.wef_collector_statuses.specs.Statuses as spec;
ghost use Rattle.wef_eventing.specs.declared.subscriptions.SourceAt as the;
ghost use Rattle.wef_keeper.specs.Access as access;
ghost use Rattle.wef_keeper.specs.Calls.{fails};
ghost use Rattle.wef_query.specs.Order.{in_order, with_names};

use crate::lines::Telling;
use std::alloc::{AllocError, Global};
use std::collections::BTreeSet;
use wef_base::moments::Moment;
use wef_base::{List, SubId, Text};
use wef_collector_rows::CollectorForm;
use wef_collector_rows::faults::CollectorFault;
use wef_collector_rows::keys::all_heard_start;
use wef_collector_rows::standings::{Standing, standing_in};
use wef_eventing::{SourceAt, Subscription};
use wef_keeper::access::{PAGE, last_key_of};
use wef_keeper::forms::formed_page;
use wef_keeper::{Depth, Keeper, StoreFault};

/// Which sources of a subscription are silent at a moment, live or ended: a line for each source that was heard or is
/// listed, in the order of names. The rows are read page by page.
pub fn statuses<K: Keeper>(keeper: &mut K, sub: &SubId, now: Moment) -> Result<Text, CollectorFault>
    requires { access.IsReady (K.store keeper.old) }
    ensures known { IfSome (K.store keeper.new).rows (λ rows. OnOk result (answers.is_known (standing rows sub.now) ≡ true)) }
    ensures text { IfSome (K.store keeper.new).rows (λ rows. IfOk result (λ text. text ≡ spec.statuses rows sub.now now)) }
    ensures judged { IfSome (K.store keeper.new).rows (λ rows. JudgesName result rows sub.now × OnOk result (AreAllFormed (heard_rows rows sub.now))) }
    ensures refusal { IfErr result (λ fault. answers.RefusesUnknown fault (K.store keeper.new).rows sub.now) }
    ensures reads { access.Reads AreFormed (fails collector_store result) (K.store keeper.old) (K.store keeper.new) }
{
    let about = subscription_in(keeper, sub)?;
    let telling = Telling {
        sub: sub.as_text().clone()?,
        heartbeat: about.heartbeat,
        moment: now,
    };
    Ok(lines_of(keeper, &telling, about.sources.as_slice())?)
}

/// The subscription of a name, live or ended.
fn subscription_in<K: Keeper>(keeper: &mut K, sub: &SubId) -> Result<Subscription, CollectorFault>
    requires { access.IsReady (K.store keeper.old) }
    ensures about { IfSome (K.store keeper.new).rows (λ rows. IfOk result (λ about. spec.IsAbout about (standing rows sub.now))) }
    ensures judged { IfSome (K.store keeper.new).rows (λ rows. JudgesName result rows sub.now) }
    ensures refusal { IfErr result (λ fault. answers.RefusesUnknown fault (K.store keeper.new).rows sub.now) }
    ensures reads { access.Reads AreFormed (fails collector_store result) (K.store keeper.old) (K.store keeper.new) }
{
    match standing_in(keeper, sub)? {
        Standing::Unknown => Err(CollectorFault::NoSubscription),
        Standing::Ended(about) => Ok(about),
        Standing::Live(about) => Ok(about),
    }
}

/// The lines of a subscription that lists these sources.
fn lines_of<K: Keeper>(
    keeper: &mut K,
    telling: &Telling,
    sources: &[SourceAt],
) -> Result<Text, StoreFault>
    requires { access.IsReady (K.store keeper.old) }
    ensures text { IfSome (K.store keeper.new).rows (λ rows. IfOk result (λ text. text ≡ told telling.now (heard_rows rows telling.now.sub) (in_order (map (λ (at : the.SourceAt). at.name) sources.now)))) }
    ensures judged { IfSome (K.store keeper.new).rows (λ rows. OnOk result (AreAllFormed (heard_rows rows telling.now.sub))) }
    ensures reads { access.Reads AreFormed (access.fails result) (K.store keeper.old) (K.store keeper.new) }
{
    let alloc = telling.sub.alloc();
    let listed = names_of(alloc, sources)?;
    let mut text = Text::new(alloc);
    let left = push_heard(&mut text, keeper, telling, listed.as_slice())?;
    telling.push_never(&mut text, left)?;
    Ok(text)
}

/// The names of sources, each once, in order.
fn names_of(alloc: Global, sources: &[SourceAt]) -> Result<List<Text>, AllocError>
    ensures { IfOk result (λ names. names ≡ in_order (map (λ (at : the.SourceAt). at.name) sources.now)) }
{
    let mut names = BTreeSet::new(alloc);
    add_names(&mut names, sources)?;
    Ok(List::from(names.into_iter().collect::<Vec<Text>>(alloc)?))
}

fn add_names(names: &mut BTreeSet<Text>, sources: &[SourceAt]) -> Result<(), AllocError>
    ensures { OnOk result (names.new.keys ≡ with_names names.old.keys (map (λ (at : the.SourceAt). at.name) sources.now)) }
{
    for source in sources {
        names.insert(source.name.as_text().clone()?)?;
    }
    Ok(())
}

/// Adds the lines of the sources that were heard and of the listed ones in front of these and between them, page by
/// page, and gives the listed ones that are left.
fn push_heard<'a, K: Keeper>(
    text: &mut Text,
    keeper: &mut K,
    telling: &Telling,
    listed: &'a [Text],
) -> Result<&'a [Text], StoreFault>
    requires { access.IsReady (K.store keeper.old) }
    ensures text { IfSome (K.store keeper.new).rows (λ rows. IfOk result (λ left. text.new ++ flat_map (never_line telling.now) left.now ≡ text.old ++ told telling.now (heard_rows rows telling.now.sub) listed.now)) }
    ensures judged { IfSome (K.store keeper.new).rows (λ rows. OnOk result (AreAllFormed (heard_rows rows telling.now.sub))) }
    ensures reads { access.Reads AreFormed (access.fails result) (K.store keeper.old) (K.store keeper.new) }
{
    let mut left = listed;
    let mut last = all_heard_start(&telling.sub)?;
    loop {
        let page = formed_page::<CollectorForm, K>(keeper, &last, Depth::Sub, PAGE)?;
        left = telling.push_rows(text, left, page.as_slice())?;
        if page.len() < PAGE as usize {
            return Ok(left);
        }
        last = last_key_of(last, page.as_slice())?;
        // The length is asked for since it bounds how often a page is added.
        let _length = text.len();
    }
}
