// Texts that are read and printed again.
use cell_base::Memory;
use held_values::without;
use history_log::{print, read};
use std::alloc::Global;

// Whether what was printed is this text.
fn is_text(printed: &Result<Vec<u8>, Memory>, wanted: &[u8]) -> bool {
    match printed {
        Ok(printed) => printed.as_slice() == wanted,
        Err(_) => false,
    }
}

// Whether this is printed of what is read of the text.
fn prints(alloc: Global, text: &[u8], wanted: &[u8]) -> bool {
    match read(alloc, text) {
        Ok(trace) => {
            let printed = print(
                alloc,
                trace.level,
                trace.initial.as_slice(),
                trace.events.as_slice(),
                trace.order.as_slice(),
            );
            let is_so = is_text(&printed, wanted);
            without((printed, trace), is_so)
        }
        Err(_) => false,
    }
}

// The worked history of one session, in version 2.
const WORKED: &[u8] =
    b"monkey-log 2 rc\nopen 1\ndefine 1 x74\nlook 1 1\nbegin 1 rc\nread 1 p.0.1 0 1 0 false\nwrite 1 p.0.1 true\nwrite 1 f.0.1.1 10\ncommit 1\nlook 1 1\nbegin 1 rc\nread 1 p.0.1 1 2 1 true\nread 1 f.0.1.1 1 1 7 10\ncommit 1\nclose 1\norder 0 1 2\nend\n";

// The same, in version 1.
const WORKED_1: &[u8] =
    b"monkey-log 1 rc\nopen 1\ndefine 1 x74\nlook 1 1\nbegin 1\nread 1 p.0.1 0 1 0 false\nwrite 1 p.0.1 true\nwrite 1 f.0.1.1 10\ncommit 1\nlook 1 1\nbegin 1\nread 1 p.0.1 1 2 1 true\nread 1 f.0.1.1 1 1 7 10\ncommit 1\nclose 1\norder 0 1 2\nend\n";

#[test]
fn the_worked_history(rt: HostRuntime) -> Result<(), Memory> {
    assert_eq!(&rt; prints(rt.alloc(), WORKED, WORKED), true);
    assert_eq!(&rt; prints(rt.alloc(), WORKED_1, WORKED), true);
    Ok(())
}

// Each kind of event, with keys and values of each kind.
const KINDS: &[u8] =
    b"monkey-log 2 cc\nopen 1\ndefine 1 x\nlook 1 0\nbegin 1 ra\nscan 1 0\nscan 1 4294967295 -9223372036854775808 0 9223372036854775807 x00c3bf7f\nread 1 f.0.x61.2 0 3 4294967295 unset\nown 1 p.0.-5 true\nwrite 1 f.1.-5.0 null\nwrite 1 f.1.x.0 -1\nwrite 1 f.1.0.0 x\ncommit 1\nbegin 1 cc\nrollback 1\nshow 1 17\nclose 1\norder\nend\n";

#[test]
fn each_kind_of_event(rt: HostRuntime) -> Result<(), Memory> {
    assert_eq!(&rt; prints(rt.alloc(), KINDS, KINDS), true);
    Ok(())
}

// Two rows that are there from the start.
const ROWS: &[u8] =
    b"monkey-log 3 ra\ninitial p.0.1 true\ninitial p.0.2 true\ninitial f.0.1.1 10\ninitial f.0.2.1 null\norder 0\nend\n";

#[test]
fn an_initial_state(rt: HostRuntime) -> Result<(), Memory> {
    assert_eq!(&rt; prints(rt.alloc(), ROWS, ROWS), true);
    Ok(())
}

// Numbers, keys and values on both sides of where they get a digit more, or a number of 32 bits ends.
const LIMITS: &[u8] =
    b"monkey-log 2 rc\nopen 4294967295\nopen 4294967290\nopen 999999999\nopen 1000000000\nlook 429496729 429496730\nread 4294967295 f.4294967295.4294967296.429496730 4294967290 429496729 1000000000 4294967296\nwrite 0 p.9.99 -9\nwrite 10 f.10.-4294967296.9 -9223372036854775808\nwrite 99 f.99.9223372036854775807.10 9223372036854775807\nscan 100 0 -10 -9 -1 0 9 10 99 100 999999999 1000000000 4294967295 4294967296 9999999999 10000000000\nshow 9 4294967295\norder 0 9 10 999999999 1000000000 4294967290 4294967295\nend\n";

#[test]
fn numbers_near_their_limits(rt: HostRuntime) -> Result<(), Memory> {
    assert_eq!(&rt; prints(rt.alloc(), LIMITS, LIMITS), true);
    Ok(())
}
