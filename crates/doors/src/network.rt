// What doors are opened at, and servers are asked to stop at.
ghost use Rattle.std.specs.Prelude.{◌≡◌, ◌<◌, ℕ, Some, length, map, take, All, IfOk, IfSome, IsErrOf, OnOk};
ghost use Rattle.doors.specs.Passage.{IsUnused};
ghost use Rattle.doors.specs.Network.{Networked, doors_opened, open_failed, stop_sent, stop_failed, doors_returned};

use crate::door::Door;
use cell_base::Text;
use link_traits::HostFault;

/// What the program opens its doors at, and gives them back to. It also asks other servers to stop.
pub trait Network {
    /// What links come in by.
    type Door: Door;

    /// The calls that opened doors, what came back, and the calls that asked a server to stop.
    ghost networked: { Self → Networked };

    /// Opens so many doors at an address, by which the same links may come in. Where the network tells its doors beforehand, these are the
    /// first of them. `Failed` comes only where the count of faults rose, and a call that answers `Memory` has changed nothing.
    fn doors(&mut self, address: &Text, number: u32) -> Result<Vec<Self::Door>, HostFault>
        ensures ok { IfOk result (λ doors. networked self.new ≡ doors_opened address.now (map Self.Door.passage doors.items) (networked self.new).to_open (networked self.old)) }
        ensures number { IfOk result (λ doors. length doors.items ≡ number) }
        ensures unused { IfOk result (λ doors. All (λ door. IsUnused (Self.Door.passage door)) doors.items) }
        ensures told { IfOk result (λ doors. IfSome (networked self.old).to_open (λ next. map Self.Door.passage doors.items ≡ take number next)) }
        ensures failed { IsErrOf result HostFault.Failed → networked self.new ≡ open_failed address.now number (networked self.old) }
        ensures memory { IsErrOf result HostFault.Memory → networked self.new ≡ networked self.old };

    /// Sends the request to stop to the server at an address. That it was sent doesn't say that a server heard it. `Failed` comes only where
    /// the count of faults rose, and a call that answers `Memory` has changed nothing.
    fn ask_to_stop(&mut self, address: &Text) -> Result<(), HostFault>
        ensures ok { OnOk result (networked self.new ≡ stop_sent address.now (networked self.old)) }
        ensures failed { IsErrOf result HostFault.Failed → networked self.new ≡ stop_failed address.now (networked self.old) }
        ensures memory { IsErrOf result HostFault.Memory → networked self.new ≡ networked self.old };

    /// Takes the doors of a call back. Takes no memory.
    fn doors_back(&mut self, doors: Vec<Self::Door>)
        requires { 0 < (networked self.old).lent }
        ensures { networked self.new ≡ doors_returned (map Self.Door.passage doors.items) (networked self.old) };
}
