//! The lines of a collector that begins subscriptions.

ghost use Rattle.std.specs.Prelude.{◌≡◌, IfOk, OnOk};
ghost use Rattle.wef_collector_rows.specs.Forms.{AreFormed};
ghost use Rattle.wef_machine.specs.Collecting as collecting;
ghost use Rattle.wef_machine.specs.Leasing as leasing;
ghost use Rattle.wef_machine.specs.Printed as texts;
ghost use Rattle.wef_machine.specs.States as states;
ghost use Rattle.wef_machine.specs.Steps as steps;
ghost use Rattle.wef_safety.specs.Kept.{IsHeld};
ghost use Rattle.wef_machine.specs.Turns.{request_step};
ghost use Rattle.wef_world.specs.Exchanged.{request_comes};
ghost use Rattle.wef_world.specs.Requested as requests;

use crate::ends::{COLLECTOR, Ends};
use std::alloc::{AllocError, Global};
use wef_base::Text;
use wef_bodies::Body;
use wef_collector::Request;
use wef_lines::name_line;
use wef_messages::messages::{Content, RequestBytes, Sent, host};
use wef_places::places::Used;
use wef_places::{WorldFault, collecting};
use wef_printing::printing::{fate_line, sent_line};

impl Ends {
    /// Lets the collector send the next request to a source that is due.
    pub(crate) fn request(&mut self) -> Result<Text, WorldFault>
        requires held { IsHeld self.old }
        ensures state { OnOk result (self.new ≡ collecting.at_collector self.old leasing.request_at) }
        ensures printed { IfOk result (λ text. text ≡ collecting.print_at_collector self.old steps.closed_line leasing.request_text) }
    {
        let (alloc, now) = (self.alloc, self.moment);
        let host = host(alloc)?;
        let asked = collecting::ask(&mut self.collector, alloc, &host, now)?;
        self.send_requested(asked)
    }

    /// Lets the collector send the next request to a source that is due, and answers its number, where it
    /// sent one.
    pub(crate) fn let_request(&mut self) -> Result<Option<u64>, WorldFault>
        requires held { IsHeld self.old }
        ensures state { OnOk result (self.new ≡ request_step self.old) }
        ensures sent { IfOk result (λ sent. sent ≡ request_comes self.old) }
    {
        let (alloc, now) = (self.alloc, self.moment);
        let host = host(alloc)?;
        let asked = collecting::ask(&mut self.collector, alloc, &host, now)?;
        Ok(self.number_requested(asked)?)
    }

    /// Sends a request, where something is due, and answers its number.
    fn number_requested(&mut self, asked: Used<Option<Request>>) -> Result<Option<u64>, AllocError>
        requires { requests.CanBeSentAs asked }
        ensures state { OnOk result (self.new ≡ requests.with_requested self.old asked) }
        ensures sent { IfOk result (λ sent. sent ≡ requests.requested_number (states.next_number self.old) asked) }
    {
        match asked {
            Used::Closed(_) => Ok(None),
            Used::Answered(None) => Ok(None),
            Used::Answered(Some(request)) => Ok(Some(self.send_request(&request)?)),
        }
    }

    /// Sends a request, where something is due, and tells what became of it.
    fn send_requested(&mut self, asked: Used<Option<Request>>) -> Result<Text, WorldFault>
        requires { requests.CanBeSentAs asked }
        ensures state { OnOk result (self.new ≡ requests.with_requested self.old asked) }
        ensures printed { IfOk result (λ text. text ≡ requests.requested_line (states.next_number self.old) asked) }
    {
        match asked {
            Used::Closed(fate) => Ok(fate_line(self.alloc, fate, COLLECTOR)?),
            Used::Answered(None) => {
                let name = Text::from_str(self.alloc, COLLECTOR)?;
                Ok(name_line("nothing", &name)?)
            }
            Used::Answered(Some(request)) => {
                let number = self.send_request(&request)?;
                Ok(requested_line(number, &request)?)
            }
        }
    }

    /// Sends a request as its bytes, and answers its number.
    fn send_request(&mut self, request: &Request) -> Result<u64, AllocError>
        requires { requests.CanBeSent request.now }
        ensures state { OnOk result (self.new ≡ states.with_message self.old (leasing.request_message request.now)) }
        ensures number { IfOk result (λ number. number ≡ states.next_number self.old) }
    {
        let content = Content::Request(RequestBytes::of(self.alloc, request)?);
        self.send(Sent::of(request.source.name.clone()?, content))
    }

    /// Lets the collector wait for no answer any longer.
    pub(crate) fn forget(&mut self) -> Result<Text, WorldFault>
        requires formed { AreFormed self.old.collector.rows }
        ensures state { OnOk result (self.new ≡ collecting.at_collector self.old leasing.forget_at) }
        ensures printed { IfOk result (λ text. text ≡ collecting.print_at_collector self.old steps.closed_line (λ memory. steps.no_text)) }
    {
        let forgot = collecting::forget(&mut self.collector, self.alloc)?;
        Ok(forgot_line(self.alloc, forgot)?)
    }
}

/// What is printed of a request that was sent.
fn requested_line(number: u64, request: &Request) -> Result<Text, AllocError>
    ensures { IfOk result (λ text. text ≡ texts.sent_line number (leasing.request_word request.now.body) request.now.source.name request.now.sub) }
{
    let word = request_word(&request.body);
    sent_line(number, word, &request.source.name, request.sub.as_text())
}

/// The word for what a collector asks a source for.
fn request_word(body: &Body) -> &'static str
    ensures { result.now ≡ leasing.request_word body.now }
{
    match body {
        Body::Renew { .. } => "renew",
        Body::Unsubscribe => "unsubscribe",
        _ => "subscribe",
    }
}

/// What is printed of a collector that waits for no answer any longer.
fn forgot_line(alloc: Global, forgot: Used<()>) -> Result<Text, AllocError>
    ensures { IfOk result (λ text. text ≡ requests.forgot_line forgot) }
{
    match forgot {
        Used::Closed(fate) => fate_line(alloc, fate, COLLECTOR),
        Used::Answered(()) => Ok(Text::new(alloc)),
    }
}
