//! Subscriptions, written out as what they say.

use std::alloc::AllocError;
use wef_base::Text;
use wef_documents::DocumentFault;
use wef_eventing::{SourceAt, SubKind, Subscription};
use wef_query::QueryItem;

/// Appends what was read: `NAME KIND items N bytes N heartbeat N expires N version N`, the queries as
/// `GROUP+CHANNEL` or, of a Suppress, `GROUP-CHANNEL`, and the sources as `NAME at ADDRESS`.
pub(crate) fn push_read(
    shown: &mut Text,
    read: &Result<Subscription, DocumentFault>,
) -> Result<(), AllocError> {
    match read {
        Ok(subscription) => push_subscription(shown, subscription),
        Err(fault) => push_fault(shown, *fault),
    }
}

fn push_subscription(shown: &mut Text, subscription: &Subscription) -> Result<(), AllocError> {
    shown.push_str(subscription.name.as_text().as_str())?;
    shown.push_str(kind_of(subscription.kind))?;
    push_number(shown, " items ", u64::from(subscription.max_items))?;
    push_number(shown, " bytes ", u64::from(subscription.max_bytes))?;
    push_number(shown, " heartbeat ", subscription.heartbeat)?;
    push_number(shown, " expires ", subscription.expires)?;
    push_number(shown, " version ", subscription.version)?;
    push_queries(shown, subscription.query.items.as_slice())?;
    push_sources(shown, subscription.sources.as_slice())
}

fn kind_of(kind: SubKind) -> &'static str {
    match kind {
        SubKind::BySource => " by sources",
        SubKind::ByCollector => " by the collector",
    }
}

fn push_number(shown: &mut Text, word: &str, number: u64) -> Result<(), AllocError> {
    shown.push_str(word)?;
    shown.push_number(number)
}

fn push_queries(shown: &mut Text, items: &[QueryItem]) -> Result<(), AllocError> {
    for item in items {
        push_query(shown, item)?;
    }
    Ok(())
}

fn push_query(shown: &mut Text, item: &QueryItem) -> Result<(), AllocError> {
    push_number(shown, " ", item.group)?;
    shown.push_str(if item.suppress { "-" } else { "+" })?;
    shown.push_str(item.channel.as_text().as_str())
}

fn push_sources(shown: &mut Text, sources: &[SourceAt]) -> Result<(), AllocError> {
    for source in sources {
        push_source(shown, source)?;
    }
    Ok(())
}

fn push_source(shown: &mut Text, source: &SourceAt) -> Result<(), AllocError> {
    shown.push_str("; ")?;
    shown.push_str(source.name.as_text().as_str())?;
    shown.push_str(" at ")?;
    shown.push_str(source.address.as_str())
}

fn push_fault(shown: &mut Text, fault: DocumentFault) -> Result<(), AllocError> {
    match fault {
        DocumentFault::NoMemory => Err(AllocError),
        _ => {
            let told = format!(in shown.alloc(); "{fault}")?;
            shown.push_str(told.as_str())
        }
    }
}
