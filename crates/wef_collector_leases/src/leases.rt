//! The lease of a subscription and a source, and what it has the collector want.

ghost use Rattle.std.specs.Prelude.{◌≡◌, true, false, IfOk, IfSome, OnOk};
ghost use Rattle.wef_base.specs.Characters as characters;
ghost use Rattle.wef_collector_leases.specs.Leases as spec;
ghost use Rattle.wef_collector_rows.specs.Forms.{AreFormed};
ghost use Rattle.wef_collector_rows.specs.Judged.{IsFormedAt};
ghost use Rattle.wef_collector_rows.specs.Keys as keys;
ghost use Rattle.wef_keeper.specs.Access as access;

use wef_base::characters::is_xml_text;
use wef_base::{SourceName, SubId, Text};
use wef_collector_rows::CollectorForm;
use wef_collector_rows::keys::lease_key;
use wef_keeper::forms::formed_cell;
use wef_keeper::{Cell, Keeper, StoreFault};

/// How long a source goes on sending that the collector asked for its events.
#[derive(Debug, Drop)]
pub struct Lease {
    /// What the source names its session by.
    pub identifier: Text,
    /// When it ends, in milliseconds since the beginning of 1970. It may pass the greatest moment.
    pub expiry: u64,
}

/// What the collector wants of a source.
#[derive(Debug)]
pub enum Wants {
    /// That it begins to send.
    Subscribes,
    /// That it goes on sending in the session that it names so.
    Renews { identifier: Text },
    /// That it ends the session that it names so.
    Unsubscribes { identifier: Text },
}

/// One call for whoever lets a wish go, whatever it holds.
impl Drop for Wants {
    fn drop(self) {
        match self {
            Wants::Subscribes
            | Wants::Renews { identifier: _ }
            | Wants::Unsubscribes { identifier: _ } => {}
        }
    }
}

/// The lease of a subscription and a source, or none where none stands.
pub fn read_lease<K: Keeper>(
    keeper: &mut K,
    sub: &SubId,
    source: &SourceName,
) -> Result<Option<Lease>, StoreFault>
    requires { access.IsReady (K.store keeper.old) }
    ensures lease { IfSome (K.store keeper.new).rows (λ rows. IfOk result (λ lease. lease ≡ spec.lease_at rows sub.now source.now)) }
    ensures allowed { IfOk result (λ lease. IfSome lease spec.IsXmlLease) }
    ensures judged { IfSome (K.store keeper.new).rows (λ rows. OnOk result (IsFormedAt (keys.lease_key sub.now source.now) rows)) }
    ensures reads { access.Reads AreFormed (access.fails result) (K.store keeper.old) (K.store keeper.new) }
{
    let key = lease_key(sub.as_text(), source.as_text())?;
    match formed_cell::<CollectorForm, K>(keeper, &key)? {
        Some(cell) => lease_of(cell),
        None => Ok(None),
    }
}

/// The lease that stands at a key. It fails where it isn't of its form.
#[tactic(auto, using(crate::proofs::Texts::allowed_of))]
fn lease_of(cell: Cell) -> Result<Option<Lease>, StoreFault>
    ensures lease { IfOk result (λ lease. lease ≡ spec.some_lease cell) }
    ensures allowed { IfOk result (λ lease. IfSome lease spec.IsXmlLease) }
    ensures failed { access.fails result ≡ true → characters.is_xml_text cell.body ≡ false }
{
    // The text is asked for since it says that it is UTF-8.
    let _text = cell.body.as_str();
    if !is_xml_text(&cell.body)? {
        return Err(StoreFault::Failed);
    }
    Ok(Some(Lease {
        identifier: cell.body,
        expiry: cell.value,
    }))
}
