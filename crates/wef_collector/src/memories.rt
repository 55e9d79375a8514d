//! What a collector remembers while it runs.

ghost use Rattle.std.specs.Prelude.{◌≡◌, option_copied, IfSome, OnErr, OnOk};
ghost use Rattle.wef_collector.specs.Memories as spec;
ghost use Rattle.wef_collector_leases.specs.Leases.{IsXmlWish};

use crate::responses::Answered;
use std::alloc::{AllocError, Global};
use wef_collector_leases::{Waiting, WaitingList};
use wef_collector_rows::faults::CollectorFault;
use wef_ids::Ids;

/// What a collector remembers: nothing of it outlives it.
#[derive(Drop)]
pub struct Memory {
    /// Those that it draws for the messages that it sends.
    pub ids: Ids,
    /// Its requests to sources that wait for their answers.
    pub waiting: WaitingList,
}

impl Memory {
    /// What a collector remembers that has just started.
    pub fn of_boot(alloc: Global, boot: u64) -> Memory
        ensures { result ≡ spec.start_of boot }
    {
        Memory {
            ids: Ids::of_boot(boot),
            waiting: WaitingList::new(alloc),
        }
    }

    /// A request is sent under the next id, and waits for its answer.
    pub(crate) fn wait_for(&mut self, waiting: Waiting) -> Result<(), AllocError>
        requires { IsXmlWish waiting.wants }
        ensures ok { OnOk result (self.new ≡ spec.waits_in waiting self.old) }
        ensures err { OnErr result (self.new ≡ self.old) }
    {
        self.waiting.put(waiting)?;
        self.ids.draw();
        Ok(())
    }

    /// The answer to the message of an id was handed to the collector. It takes no memory.
    pub(crate) fn answer(&mut self, id: Option<u128>, answered: &Result<Answered, CollectorFault>)
        ensures { self.new ≡ spec.memory_answered answered.now id self.old }
    {
        if ends_waiting(answered) {
            self.stop_waiting(id);
        }
    }

    /// The request that was sent under an id waits no longer. It takes no memory.
    fn stop_waiting(&mut self, id: Option<u128>)
        ensures { self.new ≡ spec.answered_in id self.old }
    {
        if let Some(id) = id {
            self.waiting.take(id);
        }
    }

    /// All leases were to end. It takes no memory.
    pub(crate) fn release(&mut self, done: &Result<(), CollectorFault>)
        ensures { self.new ≡ spec.memory_released done.now self.old }
    {
        if done.is_ok() {
            self.forget();
        }
    }

    /// No request waits any longer. It takes no memory.
    pub(crate) fn forget(&mut self)
        ensures { self.new ≡ spec.forgotten self.old }
    {
        self.waiting.clear();
    }

    /// The request that was sent under an id and waits for its answer.
    pub(crate) fn waiting_for(&self, id: Option<u128>) -> Option<&Waiting>
        ensures waiting { option_copied result ≡ spec.waiting_for self.now id }
        ensures wish { IfSome (option_copied result) (λ waiting. IsXmlWish waiting.wants) }
    {
        match id {
            Some(id) => self.waiting.first_of(id),
            None => None,
        }
    }
}

/// Whether a request waits no longer after the answer to it: it was taken, or the store failed.
fn ends_waiting(answered: &Result<Answered, CollectorFault>) -> bool
    ensures { result ≡ spec.ends_waiting answered.now }
{
    match answered {
        Ok(_) | Err(CollectorFault::Failed) => true,
        Err(_) => false,
    }
}
