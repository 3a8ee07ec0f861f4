// Calls that hand files out, each with what it is to come to.
use crate::server::compared::right;
use crate::server::steps::{reads, sends};
use case_lines::text_of;
use cell_base::Text;
use link_traits::Host;
use std::alloc::Global;
use std::test::Fail;

/// What hands a file out.
#[derive(Clone, Copy)]
pub enum Call {
    /// The file of the path is opened, and a read gives the bytes, up to four.
    Open,
    /// A file of the path is made, and takes the bytes.
    Make,
}

/// A call with its path and its bytes, and whether it comes to that.
pub type Row = (Call, &'static [u8], &'static [u8], bool);

/// Whether the file of the path has these bytes, up to four. It is handed back.
fn opens<H: Host>(host: &mut H, path: &Text, bytes: &[u8]) -> bool {
    match host.open_file(path) {
        Ok(mut file) => {
            let given = reads(&mut file, Some(bytes));
            host.file_back(file);
            given
        }
        Err(_) => false,
    }
}

/// Whether a file of the path is made and takes these bytes. It is handed back.
fn makes<H: Host>(host: &mut H, path: &Text, bytes: &[u8]) -> bool {
    match host.make_file(path) {
        Ok(mut file) => {
            let written = sends(&mut file, bytes);
            host.new_file_back(file);
            written
        }
        Err(_) => false,
    }
}

fn calls<H: Host>(host: &mut H, call: Call, path: &Text, bytes: &[u8]) -> bool {
    match call {
        Call::Open => opens(host, path, bytes),
        Call::Make => makes(host, path, bytes),
    }
}

fn holds<H: Host>(alloc: Global, host: &mut H, row: &Row) -> bool {
    let (call, path, bytes, want) = *row;
    match text_of(alloc, path) {
        Ok(path) => calls(host, call, &path, bytes) == want,
        Err(_) => false,
    }
}

/// Ends the test at the first call that comes to something else.
pub fn hold<H: Host>(alloc: Global, host: &mut H, table: &str, rows: &[Row]) -> Result<(), Fail> {
    for (place, row) in rows.iter().enumerate() {
        right(table, place, holds(alloc, host, row))?;
    }
    Ok(())
}
