// The calls of a host in memory, and the objects that come back to it.
use crate::mem_link::MemLink;
use crate::mem_sink::MemSink;
use crate::mem_source::MemSource;
use cell_base::Text;

/// A call of a host in memory, with a copy of the object as it was handed out, or nothing where the call failed.
#[derive(Debug, Drop)]
pub enum MemCall {
    StandardLink(Option<MemLink>),
    OpenFile(Text, Option<MemSource>),
    MakeFile(Text, Option<MemSink>),
}

/// An object of a host in memory that came back.
#[derive(Debug, Drop)]
pub enum MemReturned {
    Link(MemLink),
    /// A file that was opened.
    File(MemSource),
    /// A file that was made.
    NewFile(MemSink),
}
