// Lines on standard error that name the cause of a status. They are for people, and no clause says which words stand in them.
use link_traits::words_of;
use std::alloc::Global;
use std::io;

/// What a fault was met at, as a line names it.
#[derive(Clone, Copy, Debug, PartialEq, Eq)]
pub struct Object<'a> {
    /// What stands before the name, as an option.
    pub before: &'a str,
    pub name: &'a str,
    /// What follows it, as another object.
    pub after: &'a str,
}

impl<'a> Object<'a> {
    /// The object of this name.
    pub fn named(name: &'a str) -> Object<'a> {
        Object {
            before: "",
            name,
            after: "",
        }
    }

    /// The value of an option, which is written with a blank after it.
    pub fn of_option(option: &'a str, name: &'a str) -> Object<'a> {
        Object {
            before: option,
            name,
            after: "",
        }
    }
}

/// Tells in one line which command met a fault, at which object, and why: in the system's words, where it said some, and else in these.
pub fn tell_fault<R: Eprint>(
    rt: &R,
    alloc: Global,
    command: &str,
    object: Object<'_>,
    reason: Option<io::Error>,
    otherwise: &str,
) {
    let system = match reason {
        Some(reason) => words_of(alloc, &reason).ok(),
        None => None,
    };
    let words = match &system {
        Some(words) => words.as_str(),
        None => otherwise,
    };
    let Object {
        before,
        name,
        after,
    } = object;
    let _ = eprintln!(rt; "{command}: {before}{name}{after}: {words}");
}

/// Tells in one line that a command ran out of memory.
pub fn tell_memory<R: Eprint>(rt: &R, command: &str) {
    let _ = eprintln!(rt; "{command}: out of memory");
}

/// What a command reads, writes, and asks the host for.
#[derive(Clone, Copy, Debug, PartialEq, Eq)]
pub struct Objects<'a> {
    pub read: Object<'a>,
    pub written: Object<'a>,
    pub asked: Object<'a>,
}

/// Tells in one line the cause of a status from 3 to 6, and nothing of another one.
pub fn tell_status<R: Eprint>(
    rt: &R,
    alloc: Global,
    command: &str,
    objects: Objects<'_>,
    reason: Option<io::Error>,
    code: u8,
) {
    match code {
        3 => tell_fault(rt, alloc, command, objects.read, reason, "a read failed"),
        4 => tell_fault(
            rt,
            alloc,
            command,
            objects.written,
            reason,
            "a write failed",
        ),
        5 => tell_memory(rt, command),
        6 => tell_fault(rt, alloc, command, objects.asked, reason, "it can't be had"),
        _ => {}
    }
}
