//! The number that stands at a key.

ghost use Rattle.std.specs.Prelude.{◌≡◌, IfOk, IfSome, OnOk};
ghost use Rattle.wef_collector_rows.specs.Forms.{AreFormed};
ghost use Rattle.wef_collector_rows.specs.Judged.{IsFormedAt};
ghost use Rattle.wef_collector_rows.specs.Numbers as spec;
ghost use Rattle.wef_keeper.specs.Access as access;

use crate::forms::CollectorForm;
use wef_keeper::forms::formed_cell;
use wef_keeper::{Keeper, Key, StoreFault};

/// The number that stands at a key, 0 where no row does.
pub fn number_at<K: Keeper>(keeper: &mut K, key: &Key) -> Result<u64, StoreFault>
    requires { access.IsReady (K.store keeper.old) }
    ensures number { IfSome (K.store keeper.new).rows (λ rows. IfOk result (λ number. number ≡ spec.number_at rows key.now)) }
    ensures judged { IfSome (K.store keeper.new).rows (λ rows. OnOk result (IsFormedAt key.now rows)) }
    ensures reads { access.Reads AreFormed (access.fails result) (K.store keeper.old) (K.store keeper.new) }
{
    match formed_cell::<CollectorForm, K>(keeper, key)? {
        Some(cell) => Ok(cell.value),
        None => Ok(0),
    }
}
