//! Messages as a world keeps them: each is its bytes, and no value beside them.

ghost use Rattle.std.specs.Prelude.{◌≡◌, ◌++◌, ℕ, None, Some, IfOk, OnOk};
ghost use Rattle.wef_base.specs.declared.tree.Charset.TheVariants.{Utf8};
ghost use Rattle.wef_collector.specs.Asking.{CanBeRequested};
ghost use Rattle.wef_envelope.specs.Laws.{IsSpelt};
ghost use Rattle.wef_eventing.specs.Addresses.{IsHost};
ghost use Rattle.wef_front_collector.specs.HeardResponses.{response_told};
ghost use Rattle.wef_front_source.specs.Heard.{Hears};
ghost use Rattle.wef_front_source.specs.HeardReplies.{offers_told, told};
ghost use Rattle.wef_front.specs.Replies.{offers_bytes, reply_bytes};
ghost use Rattle.wef_front.specs.Sent.{CanBeAsked};
ghost use Rattle.wef_front_source.specs.Sending.{BeatCanBeSent, CanBeSent, beat_bytes, delivery_bytes, end_bytes, enumerate_bytes};
ghost use Rattle.wef_machine.specs.Seen as texts;
ghost use Rattle.wef_machine.specs.States as states;
ghost use Rattle.wef_messages.specs.Bytes.{AreOffers, AreReply, AreResponse, answered, replied, responded};
ghost use Rattle.wef_messages.specs.Messages.{IsOf, message_of};
ghost use Rattle.wef_requests.specs.Answers.{response_bytes};
ghost use Rattle.wef_requests.specs.Requests.{IsAsking, IsPlainRequest, RequestCanBeSent, meant, requested_bytes, requested_of};
ghost use Rattle.wef_source.specs.Serving.{NoteCanBeSent};

use std::alloc::{AllocError, Global};
use std::marker::Model;
use wef_base::{Bytes, SourceName, Text};
use wef_collector::Request;
use wef_front::{write_beat, write_delivery, write_end, write_enumerate};
use wef_heartbeat::Heartbeat;
use wef_ids::MessageId;
use wef_machine::Message;
use wef_requests::write_request;
use wef_source::{Delivery, EndNote, Reply};

/// Where sources find the collector.
const HOST: &str = "collector:5985";

/// The collector's host.
pub fn host(alloc: Global) -> Result<Text, AllocError>
    ensures value { IfOk result (λ host. host ≡ states.host) }
    ensures is_one { IfOk result IsHost }
{
    Text::from_str(alloc, HOST)
}

/// A source's wish for its subscriptions as its bytes.
#[derive(Drop)]
pub struct WishBytes {
    bytes: Bytes,
}

impl Model for WishBytes {
    ghost use Rattle.wef_front.specs.Sent.{Wish};
    ghost use Rattle.wef_messages.specs.Bytes.{AreWish, wish_said};
    ghost use Rattle.wef_messages.specs.Codes.{coded_wish};

    ghost Value = { Wish };

    ghost coded = { coded_wish };

    ghost view = { λ w. wish_said w.bytes };

    ghost invariant = { λ w. AreWish w.bytes };
}

impl WishBytes {
    /// Writes the wish of a source, under an id, to the collector at its host.
    #[tactic(auto, using(crate::proofs::Said::written_wish))]
    pub fn of(alloc: Global, source: &SourceName, id: &MessageId) -> Result<WishBytes, AllocError>
        requires { CanBeAsked (record { source = source.now; id = id.now }) }
        ensures { IfOk result (λ wish. wish ≡ record { source = source.now; id = id.now }) }
    {
        let host = host(alloc)?;
        Ok(WishBytes {
            bytes: write_enumerate(alloc, &host, source, id)?,
        })
    }

    /// Its bytes, in UTF-8.
    pub fn bytes(&self) -> &Bytes
        ensures value { result.now ≡ enumerate_bytes states.host self.now.source self.now.id }
        ensures asked { CanBeAsked self.now }
    {
        &self.bytes
    }
}

/// The collector's answer with offers as its bytes.
#[derive(Drop)]
pub struct OffersBytes {
    bytes: Bytes,
}

impl Model for OffersBytes {
    ghost use Rattle.wef_messages.specs.Bytes.{Answered, AreOffers, answered};
    ghost use Rattle.wef_messages.specs.Codes.{coded_answered};

    ghost Value = { Answered };

    ghost coded = { coded_answered };

    ghost view = { λ o. answered o.bytes };

    ghost invariant = { λ o. AreOffers o.bytes };
}

impl OffersBytes {
    /// The answer with offers that bytes are.
    pub fn of(bytes: Bytes) -> OffersBytes
        requires { AreOffers bytes }
        ensures { result ≡ answered bytes }
    {
        OffersBytes { bytes }
    }

    /// Its bytes, in UTF-8.
    pub fn bytes(&self) -> &Bytes
        ensures value { result.now ≡ offers_bytes self.now.id self.now.relates self.now.offers }
        ensures told { told result.now ≡ None }
        ensures offers { (now : ℕ) → offers_told now result.now ≡ Some (self.now.relates, self.now.offers) }
    {
        &self.bytes
    }
}

/// A delivery as its bytes, and the address that they go to.
#[derive(Drop)]
pub struct DeliveryBytes {
    address: Text,
    bytes: Bytes,
}

impl Model for DeliveryBytes {
    ghost use Rattle.wef_source.specs.contracts.messages.Delivery as delivery;
    ghost use Rattle.wef_source.specs.declared.messages.Delivery.{Delivery};
    ghost use Rattle.wef_messages.specs.Bytes.{AreDelivery, delivery_said};

    ghost Value = { Delivery };

    ghost coded = { delivery.the_row.coded };

    ghost view = { λ d. delivery_said d.address d.bytes };

    ghost invariant = { λ d. AreDelivery d.address d.bytes };
}

impl DeliveryBytes {
    /// Writes a delivery.
    #[tactic(auto, using(crate::proofs::Said::written_delivery, crate::proofs::Said::written_says, wef_front_source::proofs::DeliveriesAreGood::can_be_written))]
    pub fn of(alloc: Global, delivery: &Delivery) -> Result<DeliveryBytes, AllocError>
        requires { CanBeSent delivery.now }
        ensures { IfOk result (λ sent. sent ≡ delivery.now) }
    {
        Ok(DeliveryBytes {
            address: delivery.notify_to.clone()?,
            bytes: write_delivery(alloc, delivery)?,
        })
    }

    /// Where it goes.
    #[tactic(auto, using(crate::proofs::Said::kept_address))]
    pub fn address(&self) -> &Text
        ensures { result.now ≡ self.now.notify_to }
    {
        &self.address
    }

    /// Its bytes, in UTF-8.
    #[tactic(auto, using(crate::proofs::Said::kept_bytes))]
    pub fn bytes(&self) -> &Bytes
        ensures value { result.now ≡ delivery_bytes self.now }
        ensures sent { CanBeSent self.now }
    {
        &self.bytes
    }
}

/// A heartbeat as its bytes, and the address that they go to.
#[derive(Drop)]
pub struct BeatBytes {
    address: Text,
    bytes: Bytes,
}

impl Model for BeatBytes {
    ghost use Rattle.wef_heartbeat.specs.contracts.messages.Heartbeat as beat;
    ghost use Rattle.wef_heartbeat.specs.declared.messages.Heartbeat.{Heartbeat};
    ghost use Rattle.wef_messages.specs.Bytes.{AreBeat, beat_said};

    ghost Value = { Heartbeat };

    ghost coded = { beat.the_row.coded };

    ghost view = { λ b. beat_said b.address b.bytes };

    ghost invariant = { λ b. AreBeat b.address b.bytes };
}

impl BeatBytes {
    /// Writes a heartbeat.
    #[tactic(auto, using(crate::proofs::Said::written_beat, crate::proofs::Said::beat_says, wef_front_source::proofs::BeatsAreGood::beat_can_be_written))]
    pub fn of(alloc: Global, beat: &Heartbeat) -> Result<BeatBytes, AllocError>
        requires { BeatCanBeSent beat.now }
        ensures { IfOk result (λ sent. sent ≡ beat.now) }
    {
        Ok(BeatBytes {
            address: beat.notify_to.clone()?,
            bytes: write_beat(alloc, beat)?,
        })
    }

    /// Where it goes.
    #[tactic(auto, using(crate::proofs::Said::kept_beat_address))]
    pub fn address(&self) -> &Text
        ensures { result.now ≡ self.now.notify_to }
    {
        &self.address
    }

    /// Its bytes, in UTF-8.
    #[tactic(auto, using(crate::proofs::Said::kept_beat))]
    pub fn bytes(&self) -> &Bytes
        ensures value { result.now ≡ beat_bytes self.now }
        ensures sent { BeatCanBeSent self.now }
    {
        &self.bytes
    }
}

/// A reply to a delivery or a heartbeat as its bytes.
#[derive(Drop)]
pub struct ReplyBytes {
    bytes: Bytes,
}

impl Model for ReplyBytes {
    ghost use Rattle.wef_messages.specs.Bytes.{AreReply, Replied, replied};
    ghost use Rattle.wef_messages.specs.Codes.{coded_reply};

    ghost Value = { Replied };

    ghost coded = { coded_reply };

    ghost view = { λ r. replied r.bytes };

    ghost invariant = { λ r. AreReply r.bytes };
}

impl ReplyBytes {
    /// The reply that bytes are.
    pub fn of(bytes: Bytes) -> ReplyBytes
        requires { AreReply bytes }
        ensures { result ≡ replied bytes }
    {
        ReplyBytes { bytes }
    }

    /// Its bytes, in UTF-8.
    #[tactic(auto, using(crate::proofs::Said::kept_reply, crate::proofs::Said::kept_told))]
    pub fn bytes(&self) -> &Bytes
        ensures value { result.now ≡ reply_bytes self.now.id self.now.relates self.now.reply }
        ensures told { told result.now ≡ Some (self.now.relates, self.now.reply) }
    {
        &self.bytes
    }
}

/// A request of the collector as its bytes.
#[derive(Drop)]
pub struct RequestBytes {
    bytes: Bytes,
}

impl Model for RequestBytes {
    ghost use Rattle.wef_messages.specs.Bytes.{AreRequest, requested};
    ghost use Rattle.wef_messages.specs.Codes.{coded_requested};
    ghost use Rattle.wef_requests.specs.Requests.{Requested};

    ghost Value = { Requested };

    ghost coded = { coded_requested };

    ghost view = { λ r. requested r.bytes };

    ghost invariant = { λ r. AreRequest r.bytes };
}

impl RequestBytes {
    /// Writes a request of the collector.
    #[tactic(auto, using(crate::proofs::Said::written_request, wef_requests::proofs::RequestsAreHeard::can_be_sent))]
    pub fn of(alloc: Global, request: &Request) -> Result<RequestBytes, AllocError>
        requires written { CanBeRequested request.now }
        requires plain { IsPlainRequest request.now }
        requires asks { IsAsking request.now.body }
        ensures { IfOk result (λ sent. sent ≡ requested_of request.now) }
    {
        Ok(RequestBytes {
            bytes: write_request(alloc, request)?,
        })
    }

    /// Its bytes, in UTF-8.
    pub fn bytes(&self) -> &Bytes
        ensures value { result.now ≡ requested_bytes self.now }
        ensures sent { RequestCanBeSent self.now }
        ensures heard { (now : ℕ) → Hears now Utf8 result.now (record { relates = Some self.now.id; asked = meant self.now.identifier self.now.body }) }
    {
        &self.bytes
    }
}

/// A source's answer to a request as its bytes.
#[derive(Drop)]
pub struct ResponseBytes {
    bytes: Bytes,
}

impl Model for ResponseBytes {
    ghost use Rattle.wef_messages.specs.Bytes.{AreResponse, Responded, responded};
    ghost use Rattle.wef_messages.specs.Codes.{coded_responded};

    ghost Value = { Responded };

    ghost coded = { coded_responded };

    ghost view = { λ r. responded r.bytes };

    ghost invariant = { λ r. AreResponse r.bytes };
}

impl ResponseBytes {
    /// The answer to a request that bytes are.
    pub fn of(bytes: Bytes) -> ResponseBytes
        requires { AreResponse bytes }
        ensures { result ≡ responded bytes }
    {
        ResponseBytes { bytes }
    }

    /// Its bytes, in UTF-8.
    pub fn bytes(&self) -> &Bytes
        ensures value { result.now ≡ response_bytes self.now.id self.now.relates self.now.answer }
        ensures told { (now : ℕ) → response_told now result.now ≡ Some (self.now.relates, self.now.answer) }
    {
        &self.bytes
    }
}

/// A note of the end of a session as its bytes, and the address that they go to.
#[derive(Drop)]
pub struct NoteBytes {
    address: Text,
    bytes: Bytes,
}

impl Model for NoteBytes {
    ghost use Rattle.wef_source.specs.contracts.messages.EndNote as note;
    ghost use Rattle.wef_source.specs.declared.messages.EndNote.{EndNote};
    ghost use Rattle.wef_messages.specs.Bytes.{AreNote, noted};

    ghost Value = { EndNote };

    ghost coded = { note.the_row.coded };

    ghost view = { λ n. noted n.bytes };

    ghost invariant = { λ n. AreNote n.address n.bytes };
}

impl NoteBytes {
    /// Writes a note.
    #[tactic(auto, using(crate::proofs::Said::written_note, crate::proofs::Said::note_says))]
    pub fn of(alloc: Global, note: &EndNote) -> Result<NoteBytes, AllocError>
        requires written { NoteCanBeSent note.now }
        requires spelt { IsSpelt note.now.id }
        ensures { IfOk result (λ sent. sent ≡ note.now) }
    {
        Ok(NoteBytes {
            address: note.end_to.clone()?,
            bytes: write_end(alloc, note)?,
        })
    }

    /// Where it goes.
    pub fn address(&self) -> &Text
        ensures { result.now ≡ self.now.end_to }
    {
        &self.address
    }

    /// Its bytes, in UTF-8.
    pub fn bytes(&self) -> &Bytes
        ensures value { result.now ≡ end_bytes self.now }
        ensures sent { NoteCanBeSent self.now }
        ensures spelt { IsSpelt self.now.id }
    {
        &self.bytes
    }
}

/// What a message says.
pub enum Content {
    /// The source asks for its subscriptions.
    Ask(WishBytes),

    /// The collector's answer to an ask.
    Offers(OffersBytes),

    /// A batch of the source.
    Delivery(DeliveryBytes),

    /// A heartbeat of the source.
    Beat(BeatBytes),

    /// The collector's answer to a batch or a heartbeat.
    Reply(ReplyBytes),

    /// The collector asks the source to begin to send, to go on or to end.
    Request(RequestBytes),

    /// The source's answer to a request.
    Response(ResponseBytes),

    /// The source tells that a session ended which the collector began.
    Ended(NoteBytes),
}

/// One call for whoever lets a message go, whatever it holds.
impl Drop for Content {
    fn drop(self) {
        match self {
            Content::Ask(_)
            | Content::Offers(_)
            | Content::Delivery(_)
            | Content::Beat(_)
            | Content::Reply(_)
            | Content::Request(_)
            | Content::Response(_)
            | Content::Ended(_) => {}
        }
    }
}

/// A message that was sent: it is of a source, or for it.
#[derive(Drop)]
pub struct Sent {
    source: SourceName,
    content: Content,
}

impl Model for Sent {
    ghost use Rattle.wef_machine.specs.contracts.messages.Message as message;
    ghost use Rattle.wef_machine.specs.declared.messages.Message.{Message};
    ghost use Rattle.wef_messages.specs.Messages.{IsOf, message_of};

    ghost Value = { Message };

    ghost coded = { message.the_row.coded };

    ghost view = { λ sent. message_of sent.source sent.content };

    ghost invariant = { λ sent. IsOf sent.source sent.content };
}

impl Sent {
    /// A message of a source, or for it. An ask must be the source's own, and a request go to where the source is.
    pub fn of(source: SourceName, content: Content) -> Sent
        requires { IsOf source content }
        ensures { result ≡ message_of source content }
    {
        Sent { source, content }
    }

    /// The source that it is of or for, and what it says.
    pub fn parts(&self) -> (&SourceName, &Content)
        ensures message { self.now ≡ message_of result.0.now result.1.now }
        ensures own { IsOf result.0.now result.1.now }
    {
        (&self.source, &self.content)
    }

    /// Appends its bytes.
    pub fn push_text(&self, text: &mut Bytes) -> Result<(), AllocError>
        ensures { OnOk result (text.new ≡ text.old ++ texts.message_text self.now) }
    {
        match &self.content {
            Content::Ask(wish) => Ok(text.extend(wish.bytes().as_slice())?),
            Content::Offers(offers) => Ok(text.extend(offers.bytes().as_slice())?),
            Content::Delivery(delivery) => Ok(text.extend(delivery.bytes().as_slice())?),
            Content::Beat(beat) => Ok(text.extend(beat.bytes().as_slice())?),
            Content::Reply(reply) => Ok(text.extend(reply.bytes().as_slice())?),
            Content::Request(request) => Ok(text.extend(request.bytes().as_slice())?),
            Content::Response(response) => Ok(text.extend(response.bytes().as_slice())?),
            Content::Ended(note) => Ok(text.extend(note.bytes().as_slice())?),
        }
    }
}
