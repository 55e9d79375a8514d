//! Why a source ended a subscription, as texts (WS-Eventing, 3.5).

ghost use Rattle.std.specs.Prelude.{◌≡◌, IfOk};
ghost use Rattle.wef_base.specs.Names.{same};
ghost use Rattle.wef_bodies.specs.Spaces.{delivery_failure, source_canceling, source_shutting_down};
ghost use Rattle.wef_bodies.specs.Statuses.{status_of, status_text};

use std::alloc::{AllocError, Global};
use wef_base::Text;
use wef_eventing::EndStatus;

/// The source couldn't deliver.
pub const DELIVERY_FAILURE: &str = "http://schemas.xmlsoap.org/ws/2004/08/eventing/DeliveryFailure";

/// The source is shutting down.
pub const SOURCE_SHUTTING_DOWN: &str =
    "http://schemas.xmlsoap.org/ws/2004/08/eventing/SourceShuttingDown";

/// The source ended it for another reason.
pub const SOURCE_CANCELING: &str = "http://schemas.xmlsoap.org/ws/2004/08/eventing/SourceCanceling";

/// The status that a text says.
pub(crate) fn status_of(text: &str) -> Option<EndStatus>
    ensures { result ≡ status_of text.now }
{
    if is_delivery_failure(text) {
        return Some(EndStatus::DeliveryFailure);
    }
    if is_source_shutting_down(text) {
        return Some(EndStatus::SourceShuttingDown);
    }
    if is_source_canceling(text) {
        return Some(EndStatus::SourceCanceling);
    }
    None
}

#[tactic(auto, unfolding(crate::specs::Spaces::delivery_failure))]
fn is_delivery_failure(text: &str) -> bool
    ensures { result ≡ same delivery_failure text.now }
{
    DELIVERY_FAILURE == text
}

#[tactic(auto, unfolding(crate::specs::Spaces::source_shutting_down))]
fn is_source_shutting_down(text: &str) -> bool
    ensures { result ≡ same source_shutting_down text.now }
{
    SOURCE_SHUTTING_DOWN == text
}

#[tactic(auto, unfolding(crate::specs::Spaces::source_canceling))]
fn is_source_canceling(text: &str) -> bool
    ensures { result ≡ same source_canceling text.now }
{
    SOURCE_CANCELING == text
}

/// The text that says a status.
#[tactic(auto, unfolding(crate::specs::Spaces::delivery_failure, crate::specs::Spaces::source_shutting_down, crate::specs::Spaces::source_canceling))]
pub(crate) fn status_text(alloc: Global, status: EndStatus) -> Result<Text, AllocError>
    ensures { IfOk result (λ text. text ≡ status_text status) }
{
    Text::from_str(
        alloc,
        match status {
            EndStatus::DeliveryFailure => DELIVERY_FAILURE,
            EndStatus::SourceShuttingDown => SOURCE_SHUTTING_DOWN,
            EndStatus::SourceCanceling => SOURCE_CANCELING,
        },
    )
}
