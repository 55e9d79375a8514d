//! A front, which takes connections.

ghost use Rattle.std.specs.Prelude.{◌≡◌, OnOk, OnErr};
ghost use Rattle.wef_base.specs.Counts.{HasCause};
ghost use Rattle.wef_connections.specs.Opening.{next_connection, with_address, OnlyFails};

use wef_base::{IoFailed, Text};
use wef_ports::Port;

/// What listens at addresses, and takes connections one after the other. As a port it is the present
/// connection.
pub trait Front: Port {
    /// Listens at an address, a host and a port. Where it listened before, that ends.
    fn bind(&mut self, address: &Text) -> Result<(), IoFailed>
        ensures bound { OnOk result (Self.told self.new ≡ with_address address.now (Self.told self.old)) }
        ensures rest { OnErr result (OnlyFails (Self.told self.old) (Self.told self.new)) }
        ensures cause { HasCause (Self.told self.old).faults (Self.told self.new).faults result }
        ensures refusals { HasCause (Self.told self.old).around.refusals (Self.told self.new).around.refusals result };

    /// Takes the next connection, which is the present one from here on.
    fn accept(&mut self) -> Result<(), IoFailed>
        ensures accepted { OnOk result (Self.told self.new ≡ next_connection (Self.told self.old)) }
        ensures rest { OnErr result (OnlyFails (Self.told self.old) (Self.told self.new)) }
        ensures cause { HasCause (Self.told self.old).faults (Self.told self.new).faults result }
        ensures refusals { HasCause (Self.told self.old).around.refusals (Self.told self.new).around.refusals result };

    /// Ends the present connection.
    fn close(&mut self)
        ensures { Self.told self.new ≡ Self.told self.old };
}
