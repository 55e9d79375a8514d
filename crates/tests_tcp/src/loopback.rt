//! A front and a link over TCP, each other's peer.

use crate::steps::first_wrong;
use std::net::TcpListener;
use std::test::Fail;
use wef_base::Text;
use wef_tcp::{TcpFront, TcpLink};

/// Nothing is open.
const CLOSED: &str =
    "front reads = failed; front writes none = failed; link writes none = failed; front accepts = failed";

/// Two connections, one after the other. Of what comes in the first a byte is left unread.
const MEETING: &str =
    "front binds = done; front binds = failed; link connects = done; link writes questions = 9; front accepts = done; front reads = question; front writes answer = 6; link reads = answer; front closes = ; front reads = failed; front writes none = failed; link reads = ; link connects = done; front accepts = done; link writes again = 5; link closes = ; link reads = failed; front reads = again; front reads = ";

/// Addresses that lack a host or a port.
const PARTS: &[&str] = &[
    "",
    ":",
    "127.0.0.1",
    "[::1]",
    "127.0.0.1:",
    "127.0.0.1:65536",
    ":5985x",
];

/// Both fail at such an address.
const OPENINGS: &str = "front binds = failed; link connects = failed";

/// An address with a port that nobody listens at.
fn free_address(rt: HostRuntime) -> Result<Text, Fail> {
    let listener = TcpListener::bind(&rt, "127.0.0.1:0")?;
    let mut address = Text::from_str(rt.alloc(), "127.0.0.1:")?;
    address.push_number(u64::from(listener.local_addr()?.port()))?;
    Ok(address)
}

#[test]
fn a_front_and_a_link_meet(rt: HostRuntime) -> Result<(), Fail> {
    let address = free_address(rt)?;
    let mut front = TcpFront::new(rt);
    let mut link = TcpLink::new(rt);
    for calls in [CLOSED, MEETING] {
        let wrong = first_wrong(&mut front, &mut link, &address, calls)?;
        assert_eq!(&rt; wrong, None);
    }
    Ok(())
}

#[test]
fn an_address_has_a_host_and_a_port(rt: HostRuntime) -> Result<(), Fail> {
    for part in PARTS {
        let address = Text::from_str(rt.alloc(), part)?;
        let mut front = TcpFront::new(rt);
        let mut link = TcpLink::new(rt);
        let wrong = first_wrong(&mut front, &mut link, &address, OPENINGS)?;
        assert_eq!(&rt; wrong, None);
    }
    Ok(())
}
