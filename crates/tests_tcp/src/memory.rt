//! A front and a link in memory.

use crate::steps::first_wrong;
use std::alloc::{AllocError, Global};
use std::test::Fail;
use wef_base::{Bytes, List, Text};
use wef_connections::{MemConnection, MemFront, MemLink};

/// Calls of which the second of the front fails, and so does its seventh; of the link the fourth does.
const CALLS: &str =
    "front binds = done; front accepts = failed; front reads = ; front writes none = failed; front accepts = done; front reads = one; front reads = failed; front reads = two; front reads = ; front writes red = 3; front closes = ; front writes der = 3; front accepts = done; front reads = onetwo; front binds = done; front writes blue = 4; front accepts = done; front reads = ; link writes none = failed; link connects = done; link writes green = 5; link connects = failed; link reads = one; link closes = ; link connects = done; link reads = onetwo; link writes gray = 4";

/// Twice the same six bytes, at first in two pieces.
fn connections(alloc: Global) -> Result<List<MemConnection>, AllocError> {
    let mut connections = List::new(alloc);
    for cut in [3, 6] {
        let mut cuts = List::new(alloc);
        cuts.push(cut)?;
        let bytes = Bytes::from_slice(alloc, b"onetwo")?;
        connections.push(MemConnection { bytes, cuts })?;
    }
    Ok(connections)
}

fn numbers(alloc: Global, numbers: &[u64]) -> Result<List<u64>, AllocError> {
    Ok(List::from(Vec::from_slice(alloc, numbers)?))
}

/// What was sent in each connection, behind a space.
fn joined(alloc: Global, lists: &[Bytes]) -> Result<Bytes, AllocError> {
    let mut joined = Bytes::new(alloc);
    for list in lists {
        joined.push(b' ')?;
        joined.extend(list.as_slice())?;
    }
    Ok(joined)
}

/// Whether the steps answer what they should at this front and this link.
fn meets(front: &mut MemFront, link: &mut MemLink, address: &Text) -> Result<bool, AllocError> {
    let wrong = first_wrong(front, link, address, CALLS)?;
    let by_front = joined(address.alloc(), front.sent())?;
    let by_link = joined(address.alloc(), link.sent())?;
    let sent = by_front.as_slice() == b" redder blue ".as_slice()
        && by_link.as_slice() == b" green gray".as_slice();
    let addresses = front.addresses().len() == 2 && link.addresses().len() == 2;
    Ok(wrong.is_none() && sent && addresses && front.refused() == 0 && link.refused() == 0)
}

#[test]
fn connections_come_one_after_the_other(rt: HostRuntime) -> Result<(), Fail> {
    let alloc = rt.alloc();
    let address = Text::from_str(alloc, "collector:5985")?;
    let (comes, failing) = (connections(alloc)?, numbers(alloc, &[2, 7])?);
    let (replies, failing_too) = (connections(alloc)?, numbers(alloc, &[4])?);
    let mut front = MemFront::of(alloc, comes, failing);
    let mut link = MemLink::of(alloc, replies, failing_too);
    let meets = meets(&mut front, &mut link, &address)?;
    assert!(&rt; meets);
    Ok(())
}
