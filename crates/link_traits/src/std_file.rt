// The adapter over readers of the system: the trusted edge. It tells no bytes.
ghost use Rattle.std.specs.Prelude.{◌≡◌};
ghost use Rattle.link_traits.specs.Hosts.{no_bytes, silent};

use crate::faults::fault;
use crate::sides::{Failed, Sides, Source};
use std::io::{self, Read};
use std::marker::Model;

/// A source over a file of the system. It tells no bytes.
#[derive(Drop)]
pub struct FileSource<F: Read + Drop> {
    file: F,
    read_faults: u64,
    reason: Option<io::Error>,
}

impl<F: Read + Drop> Model for FileSource<F> {
    ghost use Rattle.link_traits.specs.Traffic.{Sight};
    ghost use Rattle.link_traits.specs.Hosts.{no_bytes};

    ghost Value = { Sight };

    ghost view = { λ s. no_bytes s.read_faults 0 };
}

impl<F: Read + Drop> FileSource<F> {
    /// A source over the file, whose count is 0.
    pub fn new(file: F) -> Self
        ensures { result ≡ silent }
    {
        FileSource {
            file,
            read_faults: 0,
            reason: None,
        }
    }

    // How often it failed.
    pub(crate) fn read_faults(&self) -> u64
        ensures { self.now ≡ no_bytes result 0 }
    {
        self.read_faults
    }

    // What the system said where it failed last.
    pub(crate) fn reason(&self) -> Option<io::Error> {
        self.reason
    }
}

impl<F: Read + Drop> Sides for FileSource<F> {
    ghost traffic = { λ s. s.traffic };

    ghost read_faults = { λ s. s.read_faults };

    ghost write_faults = { λ s. s.write_faults };
}

impl<F: Read + Drop> Source for FileSource<F> {
    fn read(&mut self, room: &mut [u8]) -> Result<usize, Failed> {
        match self.file.read(room) {
            Ok(n) => Ok(n),
            Err(reason) => {
                self.reason = Some(reason);
                Err(fault(&mut self.read_faults))
            }
        }
    }
}
