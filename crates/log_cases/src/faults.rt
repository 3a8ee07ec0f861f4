// Each fault, and its line.
use cell_base::Memory;
use history_log::{LogFault, read};
use std::alloc::Global;

// Whether reading the text finds this fault.
fn is_refused(alloc: Global, text: &[u8], fault: LogFault) -> bool {
    match read(alloc, text) {
        Ok(_) => false,
        Err(found) => found == fault,
    }
}

// Texts with their faults.
const FAULTS: &[(&[u8], LogFault)] = &[
    (b"", LogFault::Cut),
    (b"end", LogFault::Cut),
    (b"monkey-log 2 rc", LogFault::Cut),
    (b"monkey-log 2 rc\n", LogFault::Cut),
    (b"monkey-log 2 rc\nopen 1", LogFault::Cut),
    (b"monkey-log 2 rc\nopen 4294967296", LogFault::Cut),
    (b"monkey-log 2 rc\nopen 1\nopen 4294967296", LogFault::Cut),
    (
        b"monkey-log 2 rc\nopen 4294967296\nopen 1",
        LogFault::Line(2),
    ),
    (b"monkey-log 2 rc\norder 0\n", LogFault::Cut),
    (b"monkey-log 2 rc\norder 0\nend", LogFault::Cut),
    (b"monkey-log 2 rc\norder 0\nend\nx", LogFault::Cut),
    (b"\n", LogFault::Version),
    (b"monkey-log 4 rc\n", LogFault::Version),
    (b"monkey-log 2 RC\n", LogFault::Version),
    (b"monkey-log 02 rc\n", LogFault::Version),
    (b"monkey-log 2  rc\n", LogFault::Version),
    (b"monkey-log 2 rc\nopen 01\n", LogFault::Line(2)),
    (b"monkey-log 2 rc\nopen +1\n", LogFault::Line(2)),
    (b"monkey-log 2 rc\nopen  1\n", LogFault::Line(2)),
    (b"monkey-log 2 rc\nopen 1 \n", LogFault::Line(2)),
    (b"monkey-log 2 rc\nopen 4294967296\n", LogFault::Line(2)),
    (b"monkey-log 2 rc\nopen 1\nclose\n", LogFault::Line(3)),
    (b"monkey-log 2 rc\nbegin 1\n", LogFault::Line(2)),
    (b"monkey-log 1 rc\nbegin 1 rc\n", LogFault::Line(2)),
    (b"monkey-log 2 rc\ndefine 1 x7\n", LogFault::Line(2)),
    (b"monkey-log 2 rc\ndefine 1 xAA\n", LogFault::Line(2)),
    (b"monkey-log 2 rc\ndefine 1 xff\n", LogFault::Line(2)),
    (b"monkey-log 2 rc\nown 1 p.0 true\n", LogFault::Line(2)),
    (b"monkey-log 2 rc\nown 1 p.0.1.1 true\n", LogFault::Line(2)),
    (b"monkey-log 2 rc\nown 1 p.0.-0 true\n", LogFault::Line(2)),
    (b"monkey-log 2 rc\ninitial p.0.1 true\n", LogFault::Line(2)),
    (b"monkey-log 3 rc\norder 0\n", LogFault::Line(2)),
    (b"monkey-log 3 rc\ninitial p.0.1 false\n", LogFault::Line(2)),
    (
        b"monkey-log 3 rc\ninitial p.0.1 true\ninitial p.0.1 true\n",
        LogFault::Line(3),
    ),
    (
        b"monkey-log 3 rc\ninitial p.0.1 true\nopen 1\ninitial p.0.2 true\n",
        LogFault::Line(4),
    ),
    (b"monkey-log 3 rc\ninitial f.0.1.1 5\n", LogFault::Line(2)),
    (
        b"monkey-log 3 rc\ninitial p.0.1 true\ninitial f.0.2.1 5\n",
        LogFault::Line(3),
    ),
    (
        b"monkey-log 3 rc\ninitial p.0.1 true\ninitial p.0.3 true\ninitial f.0.2.1 5\n",
        LogFault::Line(4),
    ),
    (b"monkey-log 2 rc\nend\n", LogFault::Line(2)),
    (b"monkey-log 2 rc\norder 0\norder 0\n", LogFault::Line(3)),
    (b"monkey-log 2 rc\norder 0\nend\nend\n", LogFault::Line(4)),
    (b"monkey-log 2 rc\norder 0 -1\n", LogFault::Line(2)),
];

#[test]
fn faults_are_found(rt: HostRuntime) -> Result<(), Memory> {
    for (text, fault) in FAULTS {
        assert_eq!(&rt; is_refused(rt.alloc(), text, *fault), true);
    }
    Ok(())
}
