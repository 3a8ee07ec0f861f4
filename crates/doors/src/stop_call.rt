// Calls that ask a server to stop.
use cell_base::Text;

/// A call that asked the server at an address to stop.
#[derive(Debug, Drop)]
pub struct StopCall {
    pub address: Text,
    /// Whether the request was sent. That it was doesn't say that a server heard it.
    pub sent: bool,
}
