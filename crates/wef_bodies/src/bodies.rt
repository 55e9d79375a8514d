//! Bodies.

ghost use Rattle.std.specs.Prelude.{◌≡◌};
ghost use Rattle.wef_bodies.specs.Laws.{action_of};

use wef_base::{List, Text};
use wef_envelope::actions::{
    ENUMERATE, ENUMERATE_RESPONSE, GET_STATUS, GET_STATUS_RESPONSE, RENEW, RENEW_RESPONSE,
    SUBSCRIBE, SUBSCRIBE_RESPONSE, SUBSCRIPTION_END, UNSUBSCRIBE, UNSUBSCRIBE_RESPONSE,
};
use wef_eventing::{EndStatus, Offer, Subscribe};

/// What the body of a message says. An expiry is in milliseconds from then.
#[derive(Debug)]
pub enum Body {
    /// A source asks for its subscriptions.
    Enumerate,
    /// A collector's answer to that.
    Offers(List<Offer>),
    /// A collector asks for events by itself.
    Subscribe(Subscribe),
    /// A source's answer to that: messages about the subscription bear the identifier.
    Subscribed { identifier: Text, expires: u64 },
    /// A collector asks that a subscription last longer.
    Renew { expires: u64 },
    /// A source's answer to that.
    Renewed { expires: u64 },
    /// A collector asks how long a subscription still lasts.
    GetStatus,
    /// A source's answer to that.
    StatusIs { expires: u64 },
    /// A collector asks that a subscription end.
    Unsubscribe,
    /// A source's answer to that.
    Unsubscribed,
    /// A source has ended a subscription by itself.
    Ended { identifier: Text, status: EndStatus },
}

impl Body {
    /// The action of a message that has the body.
    #[tactic(auto, unfolding(crate::specs::Spaces::enumerate, crate::specs::Spaces::enumerate_response, crate::specs::Spaces::get_status, crate::specs::Spaces::get_status_response, crate::specs::Spaces::renew, crate::specs::Spaces::renew_response, crate::specs::Spaces::subscribe, crate::specs::Spaces::subscribe_response, crate::specs::Spaces::subscription_end, crate::specs::Spaces::unsubscribe, crate::specs::Spaces::unsubscribe_response))]
    pub fn action(&self) -> &'static str
        ensures { result.now ≡ action_of self.now }
    {
        match self {
            Body::Enumerate => ENUMERATE,
            Body::Offers(_) => ENUMERATE_RESPONSE,
            Body::Subscribe(_) => SUBSCRIBE,
            Body::Subscribed { .. } => SUBSCRIBE_RESPONSE,
            Body::Renew { .. } => RENEW,
            Body::Renewed { .. } => RENEW_RESPONSE,
            Body::GetStatus => GET_STATUS,
            Body::StatusIs { .. } => GET_STATUS_RESPONSE,
            Body::Unsubscribe => UNSUBSCRIBE,
            Body::Unsubscribed => UNSUBSCRIBE_RESPONSE,
            Body::Ended { .. } => SUBSCRIPTION_END,
        }
    }
}

/// One call for whoever lets a body go, whatever it holds.
impl Drop for Body {
    fn drop(self) {
        match self {
            Body::Offers(_)
            | Body::Subscribe(_)
            | Body::Subscribed {
                identifier: _,
                expires: _,
            }
            | Body::Ended {
                identifier: _,
                status: _,
            }
            | Body::Renew { expires: _ }
            | Body::Renewed { expires: _ }
            | Body::StatusIs { expires: _ }
            | Body::Enumerate
            | Body::GetStatus
            | Body::Unsubscribe
            | Body::Unsubscribed => {}
        }
    }
}
