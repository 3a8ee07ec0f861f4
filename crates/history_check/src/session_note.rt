// What is noted of a session.

/// Whether a session is open, and the number of its pending transaction.
#[derive(Clone, Copy, Debug)]
pub struct SessionNote {
    pub is_open: bool,
    pub pending: Option<u32>,
}
