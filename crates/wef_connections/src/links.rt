//! A link, which makes connections.

ghost use Rattle.std.specs.Prelude.{◌≡◌, OnOk, OnErr};
ghost use Rattle.wef_base.specs.Counts.{HasCause};
ghost use Rattle.wef_connections.specs.Opening.{next_connection, with_address, OnlyFails};

use wef_base::{IoFailed, Text};
use wef_ports::Port;

/// What makes connections, one after the other. As a port it is the present connection.
pub trait Link: Port {
    /// Makes a connection to an address, a host and a port. It is the present one from here on.
    fn connect(&mut self, address: &Text) -> Result<(), IoFailed>
        ensures connected { OnOk result (Self.told self.new ≡ next_connection (with_address address.now (Self.told self.old))) }
        ensures rest { OnErr result (OnlyFails (Self.told self.old) (Self.told self.new)) }
        ensures cause { HasCause (Self.told self.old).faults (Self.told self.new).faults result }
        ensures refusals { HasCause (Self.told self.old).around.refusals (Self.told self.new).around.refusals result };

    /// Ends the present connection.
    fn close(&mut self)
        ensures { Self.told self.new ≡ Self.told self.old };
}
