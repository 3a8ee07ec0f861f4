// The files of a host in memory.
ghost use Rattle.std.specs.Prelude.{◌≡◌, Some, None, IfSome, IsNone};
ghost use Rattle.link_traits.specs.Host.{bytes_at};

use cell_base::{Items, Text};

/// A file that a host has: its path, and its bytes.
#[derive(Debug, Drop)]
pub struct HostFile {
    pub path: Text,
    pub bytes: Items<u8>,
}

// The bytes of the first file of this path.
pub(crate) fn file_at<'a>(files: &'a [HostFile], path: &Text) -> Option<&'a [u8]>
    ensures some { IfSome result (λ bytes. bytes_at files.now path.now ≡ Some bytes.now) }
    ensures none { IsNone result → bytes_at files.now path.now ≡ None }
{
    for file in files {
        if file.path.is_same(path) {
            return Some(file.bytes.as_slice());
        }
    }
    None
}
