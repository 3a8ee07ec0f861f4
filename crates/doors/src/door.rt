// Doors.
ghost use Rattle.std.specs.Prelude.{◌≡◌, ◌<◌, [], None, length, IfOk, IfSome, IsErrOf};
ghost use Rattle.link_traits.specs.Traffic.{sight_of};
ghost use Rattle.doors.specs.Passage.{Passage, CameIn, given_back, accept_failed};

use link_traits::{HostFault, Link};

/// What links come in by, one after another.
pub trait Door: Send {
    /// What comes in.
    type Link: Link;

    /// The links that came in and those that were given back.
    ghost passage: { Self → Passage };

    /// Waits for the next link, and answers none where no further one comes. A door that tells its links beforehand answers none only where
    /// none of them is left. `Failed` comes only where the count of faults rose, and a call that answers `Memory` has changed nothing.
    fn accept(&mut self) -> Result<Option<Self::Link>, HostFault>
        ensures came { IfOk result (λ given. IfSome given (λ link. CameIn (sight_of Self.Link.traffic Self.Link.read_faults Self.Link.write_faults link) (passage self.old) (passage self.new))) }
        ensures none { IfOk result (λ given. given ≡ None → passage self.new ≡ passage self.old) }
        ensures none_left { IfOk result (λ given. given ≡ None → IfSome (passage self.old).to_come (λ links. links ≡ [])) }
        ensures failed { IsErrOf result HostFault.Failed → passage self.new ≡ accept_failed (passage self.old) }
        ensures memory { IsErrOf result HostFault.Memory → passage self.new ≡ passage self.old };

    /// Takes a link back. Takes no memory.
    fn done(&mut self, link: Self::Link)
        requires { length (passage self.old).back < (passage self.old).accepted }
        ensures { passage self.new ≡ given_back (sight_of Self.Link.traffic Self.Link.read_faults Self.Link.write_faults link) (passage self.old) };
}
