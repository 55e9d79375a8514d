//! Documents, and how those of the input differ from them.

use crate::shown::push_read;
use std::alloc::AllocError;
use tests_tasks::deliveries::edited_from;
use tests_tasks::escapes::unescaped;
use wef_base::Text;
use wef_documents::read_document;

/// A subscription that sources begin, with every part that is read.
pub(crate) const BY_SOURCE: &str =
    "<Subscription xmlns=\"http://schemas.microsoft.com/2006/03/windows/events/subscription\"><SubscriptionId>Base</SubscriptionId><SubscriptionType>SourceInitiated</SubscriptionType><Enabled>true</Enabled><Delivery Mode=\"Push\"><Batching><MaxItems>50</MaxItems></Batching><PushSettings><Heartbeat Interval=\"60000\"/></PushSettings></Delivery><MaxEnvelopeSize>9000</MaxEnvelopeSize><Expires>PT2H</Expires><Query><QueryList><Query Path=\"Application\"><Select>*</Select></Query></QueryList></Query><Version>7</Version></Subscription>";

/// A subscription that the collector begins at two sources, with the parts that must be there.
pub(crate) const BY_COLLECTOR: &str =
    "<Subscription xmlns=\"http://schemas.microsoft.com/2006/03/windows/events/subscription\"><SubscriptionId>Link</SubscriptionId><SubscriptionType>CollectorInitiated</SubscriptionType><Query><QueryList><Query><Select Path=\"system\">*</Select></Query></QueryList></Query><EventSources><EventSource><Address>PC1</Address></EventSource><EventSource><Address>pc2:80</Address></EventSource></EventSources></Subscription>";

/// What a document says with edits.
pub(crate) fn push_edited(shown: &mut Text, document: &str, edits: &str) -> Result<(), AllocError> {
    let bytes = edited_from(shown.alloc(), document, edits)?;
    push_bytes(shown, bytes.as_slice())
}

/// What the document of a line says.
pub(crate) fn push_document(shown: &mut Text, line: &str) -> Result<(), AllocError> {
    let bytes = unescaped(shown.alloc(), line)?;
    push_bytes(shown, bytes.as_slice())
}

/// What the document of bytes says.
pub(crate) fn push_bytes(shown: &mut Text, bytes: &[u8]) -> Result<(), AllocError> {
    push_read(shown, &read_document(shown.alloc(), bytes))
}
