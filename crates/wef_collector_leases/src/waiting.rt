//! Requests that wait for their answers, at most one for a subscription and a source.

ghost use Rattle.std.specs.List.{find, position};
ghost use Rattle.std.specs.Option.{option_copied};
ghost use Rattle.std.specs.Ordering.{is_le};
ghost use Rattle.std.specs.Prelude.{◌≡◌, [], IfSome, OnOk, OnErr};
ghost use Rattle.wef_collector_leases.specs.Leases.{IsXmlWish};
ghost use Rattle.wef_collector_leases.specs.Waiting as spec;

use crate::leases::Wants;
use std::alloc::{AllocError, Global};
use std::cmp::Ordering;
use std::marker::Model;
use wef_base::{SourceName, SubId};

/// A request that waits for its answer.
#[derive(Debug, Drop)]
pub struct Waiting {
    pub sub: SubId,
    pub source: SourceName,
    /// The value of its id.
    pub id: u128,
    pub wants: Wants,
}

/// Requests in the order of their subscriptions' names and then of their sources', by bytes, at most
/// one for both. Contracts see the list.
#[derive(Drop)]
pub struct WaitingList {
    items: Vec<Waiting>,
}

impl Model for WaitingList {
    ghost use Rattle.std.specs.Coded.{coded_list};
    ghost use Rattle.std.specs.Prelude.{List};
    ghost use Rattle.wef_collector_leases.specs.Waiting.{AreInOrder, AreXmlWishes};
    ghost use Rattle.wef_collector_leases.specs.contracts.waiting.Waiting as waiting;
    ghost use Rattle.wef_collector_leases.specs.declared.waiting.Waiting as the_waiting;

    ghost Value = { List the_waiting.Waiting };

    ghost coded = { coded_list waiting.the_row.coded };

    ghost view = { λ l. l.items.items };

    ghost invariant = { λ l. AreInOrder l.items.items × AreXmlWishes l.items.items };
}

impl WaitingList {
    /// None waits. It takes no memory.
    pub fn new(alloc: Global) -> WaitingList
        ensures { result ≡ [] }
    {
        WaitingList {
            items: Vec::new(alloc),
        }
    }

    /// Those that wait, in order.
    pub fn as_slice(&self) -> &[Waiting]
        ensures value { result.now ≡ self.now }
        ensures in_order { spec.AreInOrder self.now }
        ensures wishes { spec.AreXmlWishes self.now }
    {
        self.items.as_slice()
    }

    /// Whether one waits for a subscription and a source.
    pub fn has(&self, sub: &SubId, source: &SourceName) -> bool
        ensures { result ≡ spec.is_waiting self.now sub.now source.now }
    {
        is_waiting(self.items.as_slice(), sub, source)
    }

    /// The first that has an id.
    #[tactic(auto, using(crate::proofs::InOrder::first_wish))]
    pub fn first_of(&self, id: u128) -> Option<&Waiting>
        ensures first { option_copied result ≡ spec.first_of id self.now }
        ensures wish { IfSome (option_copied result) (λ waiting. IsXmlWish waiting.wants) }
    {
        first_of(self.items.as_slice(), id)
    }

    /// Puts a request at its place, in place of one for its subscription and source.
    pub fn put(&mut self, new: Waiting) -> Result<(), AllocError>
        requires { IsXmlWish new.wants }
        ensures ok { OnOk result (self.new ≡ spec.with_waiting self.old new) }
        ensures err { OnErr result (self.new ≡ self.old) }
    {
        put_waiting(&mut self.items, new)
    }

    /// Takes the first out that has an id. It takes no memory.
    pub fn take(&mut self, id: u128) -> Option<Waiting>
        ensures taken { result ≡ spec.first_of id self.old }
        ensures left { self.new ≡ spec.without_first id self.old }
    {
        take_waiting(&mut self.items, id)
    }

    /// None waits any more. It takes no memory.
    pub fn clear(&mut self)
        ensures { self.new ≡ [] }
    {
        self.items.clear();
    }
}

fn is_waiting(items: &[Waiting], sub: &SubId, source: &SourceName) -> bool
    ensures { result ≡ spec.is_waiting items.now sub.now source.now }
{
    items
        .iter()
        .any(|waiting| waiting.sub == *sub && waiting.source == *source)
}

fn first_of(items: &[Waiting], id: u128) -> Option<&Waiting>
    ensures { option_copied result ≡ spec.first_of id items.now }
{
    items.iter().find(|waiting| waiting.id == id)
}

/// How the pair of a request compares with that of another.
fn compared(new: &Waiting, waiting: &Waiting) -> Ordering
    ensures { result ≡ spec.pair_cmp new.now waiting.now }
{
    new.sub
        .cmp(&waiting.sub)
        .then(new.source.cmp(&waiting.source))
}

/// The place of the first request whose pair isn't below that of another.
fn place_for(items: &[Waiting], new: &Waiting) -> Option<usize>
    ensures { result ≡ position (spec.stands_at new.now) items.now }
{
    items
        .iter()
        .position(|waiting| compared(new, waiting).is_le())
}

fn put_waiting(items: &mut Vec<Waiting>, new: Waiting) -> Result<(), AllocError>
    requires in_order { spec.AreInOrder items.old.items }
    requires wishes { spec.AreXmlWishes items.old.items }
    requires wish { IsXmlWish new.wants }
    ensures ok { OnOk result (items.new.items ≡ spec.with_waiting items.old.items new) }
    ensures in_order { OnOk result (spec.AreInOrder items.new.items) }
    ensures wishes { OnOk result (spec.AreXmlWishes items.new.items) }
    ensures err { OnErr result (items.new.items ≡ items.old.items) }
{
    let Some(place) = place_for(items.as_slice(), &new) else {
        items.push(new)?;
        return Ok(());
    };
    if compared(&new, &items[place]).is_eq() {
        items[place] = new;
    } else {
        items.insert(place, new)?;
    }
    Ok(())
}

fn take_waiting(items: &mut Vec<Waiting>, id: u128) -> Option<Waiting>
    requires in_order { spec.AreInOrder items.old.items }
    requires wishes { spec.AreXmlWishes items.old.items }
    ensures taken { result ≡ spec.first_of id items.old.items }
    ensures left { items.new.items ≡ spec.without_first id items.old.items }
    ensures in_order { spec.AreInOrder items.new.items }
    ensures wishes { spec.AreXmlWishes items.new.items }
{
    let Some(place) = place_of(items.as_slice(), id) else {
        return None;
    };
    Some(items.remove(place))
}

fn place_of(items: &[Waiting], id: u128) -> Option<usize>
    ensures { result ≡ position (spec.has_id id) items.now }
{
    items.iter().position(|waiting| waiting.id == id)
}
