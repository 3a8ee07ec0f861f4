// The user that a startup message names.
ghost use Rattle.std.specs.Prelude.{◌≡◌, ◌≢◌, ◌↔◌, [], IsTrue};
ghost use Rattle.session_core.specs.Users.{user, HasUser};

use cell_base::Items;

// Whether the name is the one that is looked at.
fn is_user(name: &[u8]) -> bool
    ensures { IsTrue result ↔ (name.now ≡ user) }
{
    name == b"user".as_slice()
}

// Whether there is a byte.
fn is_full(value: &[u8]) -> bool
    ensures { IsTrue result ↔ (value.now ≢ []) }
{
    !value.is_empty()
}

/// Whether the last pair named `user` has a value that isn't empty.
pub fn has_user(pairs: &[(Items<u8>, Items<u8>)]) -> bool
    ensures { IsTrue result ↔ HasUser pairs.now }
{
    let mut has = false;
    for (name, value) in pairs {
        if is_user(name.as_slice()) {
            has = is_full(value.as_slice());
        }
    }
    has
}
