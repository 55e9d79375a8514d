//! Documents that are written for what was read.

ghost use Rattle.wef_documents.specs.Laws.{HasXmlTexts};

use crate::subscriptions::push_bytes;
use std::alloc::AllocError;
use tests_tasks::deliveries::edited_from;
use wef_base::Text;
use wef_documents::{read_document, write_document};
use wef_eventing::Subscription;

/// The document that is written for what a document says with edits, and what that says.
pub(crate) fn push_written(
    shown: &mut Text,
    document: &str,
    edits: &str,
) -> Result<(), AllocError> {
    let bytes = edited_from(shown.alloc(), document, edits)?;
    match &read_document(shown.alloc(), bytes.as_slice()) {
        Ok(subscription) => push_text(shown, subscription),
        Err(_) => shown.push_str("not read"),
    }
}

fn push_text(shown: &mut Text, subscription: &Subscription) -> Result<(), AllocError>
    requires { HasXmlTexts subscription.now }
{
    let text = write_document(shown.alloc(), subscription)?;
    shown.push_str(text.as_str())?;
    shown.push_str("\n    ")?;
    push_bytes(shown, text.as_str().as_bytes())
}
