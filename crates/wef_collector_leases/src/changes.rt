//! What is changed of leases. Where nothing is to be changed there is no change.

ghost use Rattle.std.specs.Prelude.{◌≡◌, ◌≤◌, [], ◌∷◌, option_copied, IfOk, IfSome, OnOk};
ghost use Rattle.wef_collector_leases.specs.Changes as spec;
ghost use Rattle.wef_collector_leases.specs.Leases as leases;
ghost use Rattle.wef_collector_rows.specs.Forms.{AreFormed};
ghost use Rattle.wef_collector_rows.specs.Judged.{AreAllFormed, IsFormedAt};
ghost use Rattle.wef_collector_rows.specs.Keys as keys;
ghost use Rattle.wef_keeper.specs.Access as access;

use crate::leases::{Lease, read_lease};
use std::alloc::{AllocError, Global};
use wef_base::numbers::MAX;
use wef_base::{SourceName, SubId, Text};
use wef_collector_rows::CollectorForm;
use wef_collector_rows::keys::{lease_key, leases_start};
use wef_keeper::forms::formed_section;
use wef_keeper::{Changes, Depth, Keeper, Row, StoreFault};

/// The lease of a subscription and a source becomes this one.
pub fn replace_lease<K: Keeper>(
    keeper: &mut K,
    sub: &SubId,
    source: &SourceName,
    lease: Lease,
) -> Result<Changes<CollectorForm>, StoreFault>
    requires expiry { lease.expiry ≤ MAX }
    requires allowed { leases.IsXmlLease lease }
    requires ready { access.IsReady (K.store keeper.old) }
    ensures changes { IfSome (K.store keeper.new).rows (λ rows. IfOk result (λ changes. changes ≡ spec.replace_lease rows sub.now source.now lease)) }
    ensures judged { IfSome (K.store keeper.new).rows (λ rows. OnOk result (IsFormedAt (keys.lease_key sub.now source.now) rows)) }
    ensures reads { access.Reads AreFormed (access.fails result) (K.store keeper.old) (K.store keeper.new) }
{
    let kept = read_lease(keeper, sub, source)?;
    Ok(put_over(sub, source, lease, kept.as_ref())?)
}

/// Puts a lease in place of the one that is kept, if it is another.
fn put_over(
    sub: &SubId,
    source: &SourceName,
    lease: Lease,
    kept: Option<&Lease>,
) -> Result<Changes<CollectorForm>, AllocError>
    requires expiry { lease.expiry ≤ MAX }
    requires allowed { leases.IsXmlLease lease }
    ensures { IfOk result (λ changes. changes ≡ spec.put_over sub.now source.now lease (option_copied kept.entry)) }
{
    match kept {
        Some(kept) if is_lease(&lease, kept) => Ok(Changes::new(sub.as_text().alloc())),
        _ => put_lease(sub, source, lease),
    }
}

/// Whether a lease is another, with its identifier and its end.
fn is_lease(lease: &Lease, kept: &Lease) -> bool
    ensures { result ≡ spec.is_lease lease.now kept.now }
{
    lease.identifier == kept.identifier && lease.expiry == kept.expiry
}

/// The change that puts the lease of a subscription and a source.
fn put_lease(
    sub: &SubId,
    source: &SourceName,
    lease: Lease,
) -> Result<Changes<CollectorForm>, AllocError>
    requires expiry { lease.expiry ≤ MAX }
    requires allowed { leases.IsXmlLease lease }
    ensures { IfOk result (λ changes. changes ≡ spec.put_lease sub.now source.now lease ∷ []) }
{
    let (sub, source) = (sub.as_text(), source.as_text());
    let mut changes = Changes::new(sub.alloc());
    changes.put(Row {
        key: lease_key(sub, source)?,
        value: lease.expiry,
        body: lease.identifier,
    })?;
    Ok(changes)
}

/// The lease of a subscription and a source ends.
pub fn clear_lease<K: Keeper>(
    keeper: &mut K,
    sub: &SubId,
    source: &SourceName,
) -> Result<Changes<CollectorForm>, StoreFault>
    requires { access.IsReady (K.store keeper.old) }
    ensures changes { IfSome (K.store keeper.new).rows (λ rows. IfOk result (λ changes. changes ≡ spec.clear_lease rows sub.now source.now)) }
    ensures judged { IfSome (K.store keeper.new).rows (λ rows. OnOk result (IsFormedAt (keys.lease_key sub.now source.now) rows)) }
    ensures reads { access.Reads AreFormed (access.fails result) (K.store keeper.old) (K.store keeper.new) }
{
    match read_lease(keeper, sub, source)? {
        Some(_) => Ok(delete_lease(sub, source)?),
        None => Ok(Changes::new(sub.as_text().alloc())),
    }
}

/// The lease of a subscription and a source ends, if the source names its session so.
pub fn end_lease<K: Keeper>(
    keeper: &mut K,
    sub: &SubId,
    source: &SourceName,
    identifier: &Text,
) -> Result<Changes<CollectorForm>, StoreFault>
    requires { access.IsReady (K.store keeper.old) }
    ensures changes { IfSome (K.store keeper.new).rows (λ rows. IfOk result (λ changes. changes ≡ spec.end_lease rows sub.now source.now identifier.now)) }
    ensures judged { IfSome (K.store keeper.new).rows (λ rows. OnOk result (IsFormedAt (keys.lease_key sub.now source.now) rows)) }
    ensures reads { access.Reads AreFormed (access.fails result) (K.store keeper.old) (K.store keeper.new) }
{
    match read_lease(keeper, sub, source)? {
        Some(lease) if lease.identifier == *identifier => Ok(delete_lease(sub, source)?),
        _ => Ok(Changes::new(sub.as_text().alloc())),
    }
}

/// The change that deletes the lease of a subscription and a source.
fn delete_lease(sub: &SubId, source: &SourceName) -> Result<Changes<CollectorForm>, AllocError>
    ensures { IfOk result (λ changes. changes ≡ spec.delete_lease sub.now source.now ∷ []) }
{
    let (sub, source) = (sub.as_text(), source.as_text());
    let mut changes = Changes::new(sub.alloc());
    changes.delete(lease_key(sub, source)?)?;
    Ok(changes)
}

/// The changes that delete all leases.
pub fn release_changes<K: Keeper>(
    keeper: &mut K,
    alloc: Global,
) -> Result<Changes<CollectorForm>, StoreFault>
    requires { access.IsReady (K.store keeper.old) }
    ensures changes { IfSome (K.store keeper.new).rows (λ rows. IfOk result (λ changes. changes ≡ spec.release_changes rows)) }
    ensures judged { IfSome (K.store keeper.new).rows (λ rows. OnOk result (AreAllFormed (leases.lease_rows rows))) }
    ensures reads { access.Reads AreFormed (access.fails result) (K.store keeper.old) (K.store keeper.new) }
{
    let start = leases_start(alloc);
    let rows = formed_section::<CollectorForm, K>(keeper, &start, Depth::Kind)?;
    Ok(deletes(alloc, rows.as_slice())?)
}

/// The changes that delete rows.
fn deletes(alloc: Global, rows: &[Row]) -> Result<Changes<CollectorForm>, AllocError>
    ensures { IfOk result (λ changes. changes ≡ spec.deletes rows.now) }
{
    let mut changes = Changes::new(alloc);
    for row in rows {
        changes.delete(row.key.clone()?)?;
    }
    Ok(changes)
}
