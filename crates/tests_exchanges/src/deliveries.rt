//! A delivery of a source, written out.

use std::alloc::{AllocError, Global};
use wef_base::{Bytes, List, Text};
use wef_batch::{Batch, Item};
use wef_bookmark::Bookmark;
use wef_front::write_delivery;
use wef_ids::read_id;
use wef_source::Delivery;

/// The bytes of a delivery whose batch says that a record was lost, and reads no channel.
pub(crate) fn lost(alloc: Global) -> Result<Bytes, AllocError> {
    let id = read_id(&Text::from_str(alloc, "uuid:0a0b0c0d-0000-0000-0000-000000000001")?)?;
    let mut items = List::new(alloc);
    items.push(Item::Loose { count: 1 })?;
    let batch = Batch {
        items,
        to: Bookmark::new(alloc),
        ack_wanted: true,
    };
    let delivery = Delivery {
        id,
        notify_to: Text::from_str(alloc, "http://collector:5985/wsman/subscriptions/base/pc1")?,
        identifier: Some(Text::from_str(alloc, "base")?),
        batch,
    };
    write_delivery(alloc, &delivery)
}
