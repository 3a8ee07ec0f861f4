// Lines of events, with the event that each is.
//
// A table is one text, which is checked much faster than a list of them. A line has the line of a log, ` => ` and the event that it is, or
// `none` where it is the line of none.

// Each kind of event.
const KINDS: &str = r#"
open 1 => Open { session: 1 }
close 2 => Close { session: 2 }
define 3 x74 => Define { session: 3, name: Text { text: "t" } }
define 4 x => Define { session: 4, name: Text { text: "" } }
look 5 0 => Look { session: 5, tables: 0 }
begin 6 rc => Begin { session: 6, level: Rc }
begin 7 ra => Begin { session: 7, level: Ra }
begin 8 cc => Begin { session: 8, level: Cc }
scan 9 2 => Scan { session: 9, table: 2, keys: Items { items: [] } }
scan 10 2 -5 3 x6162 => Scan { session: 10, table: 2, keys: Items { items: [Int(-5), Int(3), Text(Text { text: "ab" })] } }
scan 10 2 x61 => Scan { session: 10, table: 2, keys: Items { items: [Text(Text { text: "a" })] } }
read 11 p.0.1 2 3 4 false => Read { session: 11, cell: Presence(0, Int(1)), source: 2, count: 3, word: 4, value: Flag(false) }
read 11 f.0.x.1 2 3 4 unset => Read { session: 11, cell: Field(0, Text(Text { text: "" }), 1), source: 2, count: 3, word: 4, value: Unset }
own 12 p.0.1 true => Own { session: 12, cell: Presence(0, Int(1)), value: Flag(true) }
write 13 f.0.1.2 null => Write { session: 13, cell: Field(0, Int(1), 2), value: Null }
write 13 p.0.1 true => Write { session: 13, cell: Presence(0, Int(1)), value: Flag(true) }
write 13 f.0.1.2 unset => Write { session: 13, cell: Field(0, Int(1), 2), value: Unset }
write 13 f.0.1.2 x2d37 => Write { session: 13, cell: Field(0, Int(1), 2), value: Text(Text { text: "-7" }) }
write 13 f.0.1.2 -7 => Write { session: 13, cell: Field(0, Int(1), 2), value: Int(-7) }
commit 14 => Commit { session: 14 }
rollback 15 => Rollback { session: 15 }
show 16 17 => Show { session: 16, number: 17 }
"#;

// Numbers, at the end of a line and before a blank: one digit, up to eleven and more, and both sides of the greatest.
const NUMBERS: &str = r"
open 0 => Open { session: 0 }
open 9 => Open { session: 9 }
open 10 => Open { session: 10 }
open 100000000 => Open { session: 100000000 }
open 429496729 => Open { session: 429496729 }
open 429496730 => Open { session: 429496730 }
open 999999999 => Open { session: 999999999 }
open 1000000000 => Open { session: 1000000000 }
open 4294967289 => Open { session: 4294967289 }
open 4294967290 => Open { session: 4294967290 }
open 4294967295 => Open { session: 4294967295 }
open 4294967296 => none
open 4294967299 => none
open 4294967300 => none
open 4294967305 => none
open 5000000000 => none
open 9999999999 => none
open 10000000000 => none
open 42949672950 => none
open 42949672960 => none
open 18446744073709551616 => none
open 18446744073709551617 => none
open 00 => none
open 01 => none
open 007 => none
open 0000000001 => none
open 04294967295 => none
open +1 => none
open -1 => none
open -0 => none
open 1a => none
open a1 => none
open 1: => none
open 1/ => none
open 1.0 => none
open 42949672a => none
open 429496729a => none
open 4294967295a => none
open x31 => none
look 0 0 => Look { session: 0, tables: 0 }
look 10 9 => Look { session: 10, tables: 9 }
look 4294967295 4294967290 => Look { session: 4294967295, tables: 4294967290 }
look 429496730 4294967295 => Look { session: 429496730, tables: 4294967295 }
look 4294967296 1 => none
look 1 4294967296 => none
look 01 1 => none
look 1 01 => none
look 00 1 => none
look 1a 1 => none
look 1 1a => none
look a 1 => none
look -0 1 => none
show 4294967296 1 => none
show 4294967290 429496729 => Show { session: 4294967290, number: 429496729 }
begin 4294967295 ra => Begin { session: 4294967295, level: Ra }
begin 4294967296 ra => none
begin 01 ra => none
read 4294967295 p.0.1 429496729 4294967290 429496730 10 => Read { session: 4294967295, cell: Presence(0, Int(1)), source: 429496729, count: 4294967290, word: 429496730, value: Int(10) }
read 429496730 p.0.1 4294967295 429496729 4294967290 unset => Read { session: 429496730, cell: Presence(0, Int(1)), source: 4294967295, count: 429496729, word: 4294967290, value: Unset }
read 4294967290 p.0.1 429496730 4294967295 429496729 null => Read { session: 4294967290, cell: Presence(0, Int(1)), source: 429496730, count: 4294967295, word: 429496729, value: Null }
read 429496729 p.0.1 4294967290 429496730 4294967295 true => Read { session: 429496729, cell: Presence(0, Int(1)), source: 4294967290, count: 429496730, word: 4294967295, value: Flag(true) }
read 4294967296 p.0.1 0 1 0 true => none
read 1 p.0.1 4294967296 1 0 true => none
read 1 p.0.1 0 4294967296 0 true => none
read 1 p.0.1 0 1 4294967296 true => none
read 1 p.0.1 007 1 0 true => none
read 1 p.0.1 0 01 0 true => none
read 1 p.0.1 0 1 00 true => none
read 1 p.0.1 0 1 0a true => none
read 1 p.0.1 -0 1 0 true => none
";

// Integers as the value of a field.
const INTEGERS: &str = r"
write 1 f.0.1.1 0 => Write { session: 1, cell: Field(0, Int(1), 1), value: Int(0) }
write 1 f.0.1.1 10 => Write { session: 1, cell: Field(0, Int(1), 1), value: Int(10) }
write 1 f.0.1.1 -1 => Write { session: 1, cell: Field(0, Int(1), 1), value: Int(-1) }
write 1 f.0.1.1 -10 => Write { session: 1, cell: Field(0, Int(1), 1), value: Int(-10) }
write 1 f.0.1.1 999999999 => Write { session: 1, cell: Field(0, Int(1), 1), value: Int(999999999) }
write 1 f.0.1.1 1000000000 => Write { session: 1, cell: Field(0, Int(1), 1), value: Int(1000000000) }
write 1 f.0.1.1 4294967290 => Write { session: 1, cell: Field(0, Int(1), 1), value: Int(4294967290) }
write 1 f.0.1.1 4294967295 => Write { session: 1, cell: Field(0, Int(1), 1), value: Int(4294967295) }
write 1 f.0.1.1 4294967296 => Write { session: 1, cell: Field(0, Int(1), 1), value: Int(4294967296) }
write 1 f.0.1.1 9999999999 => Write { session: 1, cell: Field(0, Int(1), 1), value: Int(9999999999) }
write 1 f.0.1.1 10000000000 => Write { session: 1, cell: Field(0, Int(1), 1), value: Int(10000000000) }
write 1 f.0.1.1 -4294967295 => Write { session: 1, cell: Field(0, Int(1), 1), value: Int(-4294967295) }
write 1 f.0.1.1 -4294967296 => Write { session: 1, cell: Field(0, Int(1), 1), value: Int(-4294967296) }
write 1 f.0.1.1 9223372036854775807 => Write { session: 1, cell: Field(0, Int(1), 1), value: Int(9223372036854775807) }
write 1 f.0.1.1 -9223372036854775808 => Write { session: 1, cell: Field(0, Int(1), 1), value: Int(-9223372036854775808) }
write 1 f.0.1.1 9223372036854775808 => none
write 1 f.0.1.1 -9223372036854775809 => none
write 1 f.0.1.1 18446744073709551616 => none
write 1 f.0.1.1 18446744073709551626 => none
write 1 f.0.1.1 007 => none
write 1 f.0.1.1 00 => none
write 1 f.0.1.1 -0 => none
write 1 f.0.1.1 -01 => none
write 1 f.0.1.1 --1 => none
write 1 f.0.1.1 +10 => none
write 1 f.0.1.1 - => none
write 1 f.0.1.1 1- => none
write 1 f.0.1.1 10a => none
write 1 f.0.1.1 a10 => none
write 1 f.0.1.1 -1a => none
write 1 f.0.1.1 4294967295a => none
write 1 f.0.1.1 1.0 => none
own 1 f.0.1.1 4294967296 => Own { session: 1, cell: Field(0, Int(1), 1), value: Int(4294967296) }
own 1 f.0.1.1 007 => none
read 1 f.0.1.1 0 1 0 4294967296 => Read { session: 1, cell: Field(0, Int(1), 1), source: 0, count: 1, word: 0, value: Int(4294967296) }
read 1 f.0.1.1 0 1 0 -0 => none
read 1 f.0.1.1 0 1 0 10a => none
";

// Values of the other kinds.
const VALUES: &str = r#"
own 1 f.0.1.1 false => Own { session: 1, cell: Field(0, Int(1), 1), value: Flag(false) }
own 1 f.0.1.1 x => Own { session: 1, cell: Field(0, Int(1), 1), value: Text(Text { text: "" }) }
own 1 f.0.1.1 x6e756c6c => Own { session: 1, cell: Field(0, Int(1), 1), value: Text(Text { text: "null" }) }
own 1 f.0.1.1 x20 => Own { session: 1, cell: Field(0, Int(1), 1), value: Text(Text { text: " " }) }
own 1 f.0.1.1 Null => none
own 1 f.0.1.1 TRUE => none
own 1 f.0.1.1 nul => none
own 1 f.0.1.1 nulll => none
own 1 f.0.1.1 unsett => none
own 1 f.0.1.1 falsee => none
own 1 f.0.1.1 X61 => none
own 1 f.0.1.1 x6 => none
own 1 f.0.1.1 x6A => none
own 1 f.0.1.1 x6g => none
own 1 f.0.1.1 xff => none
own 1 f.0.1.1 xc3 => none
own 1 f.0.1.1 xeda080 => none
own 1 f.0.1.1 61 => Own { session: 1, cell: Field(0, Int(1), 1), value: Int(61) }
own 1 f.0.1.1 p.0.1 => none
"#;

// Keys, in a scan's list and in a cell.
const KEYS: &str = r"
scan 1 0 4294967295 4294967296 9223372036854775807 => Scan { session: 1, table: 0, keys: Items { items: [Int(4294967295), Int(4294967296), Int(9223372036854775807)] } }
scan 1 4294967295 -9223372036854775808 -1 0 10 => Scan { session: 1, table: 4294967295, keys: Items { items: [Int(-9223372036854775808), Int(-1), Int(0), Int(10)] } }
scan 1 4294967296 => none
scan 1 0 9223372036854775808 => none
scan 1 0 -9223372036854775809 => none
scan 1 0 007 => none
scan 1 0 -0 => none
scan 1 0 10a => none
scan 1 0 1 007 => none
scan 1 0 007 1 => none
scan 1 0 x6 => none
scan 1 0 xff => none
scan 1 0 null => none
own 1 p.0.4294967295 true => Own { session: 1, cell: Presence(0, Int(4294967295)), value: Flag(true) }
own 1 p.0.4294967296 true => Own { session: 1, cell: Presence(0, Int(4294967296)), value: Flag(true) }
own 1 p.0.9999999999 true => Own { session: 1, cell: Presence(0, Int(9999999999)), value: Flag(true) }
own 1 p.0.9223372036854775807 true => Own { session: 1, cell: Presence(0, Int(9223372036854775807)), value: Flag(true) }
own 1 p.0.-9223372036854775808 true => Own { session: 1, cell: Presence(0, Int(-9223372036854775808)), value: Flag(true) }
own 1 p.0.-1 true => Own { session: 1, cell: Presence(0, Int(-1)), value: Flag(true) }
own 1 p.0.0 true => Own { session: 1, cell: Presence(0, Int(0)), value: Flag(true) }
own 1 p.0.10 true => Own { session: 1, cell: Presence(0, Int(10)), value: Flag(true) }
own 1 p.0.9223372036854775808 true => none
own 1 p.0.18446744073709551616 true => none
own 1 p.0.007 true => none
own 1 p.0.-0 true => none
own 1 p.0.10a true => none
own 1 p.0.4294967295a true => none
own 1 f.0.4294967296.1 true => Own { session: 1, cell: Field(0, Int(4294967296), 1), value: Flag(true) }
own 1 f.0.-4294967296.1 true => Own { session: 1, cell: Field(0, Int(-4294967296), 1), value: Flag(true) }
own 1 f.0.007.1 true => none
own 1 f.0.-0.1 true => none
own 1 f.0.10a.1 true => none
";

// Cells.
const CELLS: &str = r#"
own 1 p.0.5 true => Own { session: 1, cell: Presence(0, Int(5)), value: Flag(true) }
own 1 f.0.5.1 true => Own { session: 1, cell: Field(0, Int(5), 1), value: Flag(true) }
own 1 f.1.x61.2 true => Own { session: 1, cell: Field(1, Text(Text { text: "a" }), 2), value: Flag(true) }
own 1 f.0.-3.1 true => Own { session: 1, cell: Field(0, Int(-3), 1), value: Flag(true) }
own 1 p.1.x61 true => Own { session: 1, cell: Presence(1, Text(Text { text: "a" })), value: Flag(true) }
own 1 p.1.x true => Own { session: 1, cell: Presence(1, Text(Text { text: "" })), value: Flag(true) }
own 1 p.4294967295.5 true => Own { session: 1, cell: Presence(4294967295, Int(5)), value: Flag(true) }
own 1 f.4294967290.5.4294967295 true => Own { session: 1, cell: Field(4294967290, Int(5), 4294967295), value: Flag(true) }
own 1 f.429496729.429496730.429496729 true => Own { session: 1, cell: Field(429496729, Int(429496730), 429496729), value: Flag(true) }
own 1 p.4294967296.5 true => none
own 1 f.4294967296.5.1 true => none
own 1 f.0.5.4294967296 true => none
own 1 p.00.5 true => none
own 1 p.0.05 true => none
own 1 f.01.5.1 true => none
own 1 f.0.5.01 true => none
own 1 p.-1.5 true => none
own 1 f.0.5.-1 true => none
own 1 p.0.5.1 true => none
own 1 f.0.5 true => none
own 1 f.0.5.1.2 true => none
own 1 q.0.5 true => none
own 1 p..5 true => none
own 1 p.0. true => none
own 1 p.0 true => none
own 1 p. true => none
own 1 p true => none
own 1 f.0.5. true => none
own 1 f.0..1 true => none
own 1 f..5.1 true => none
own 1 f.0.5.1. true => none
own 1 p.0.5. true => none
own 1 pp.0.5 true => none
own 1 pf.0.5 true => none
own 1 ff.0.5.1 true => none
own 1 p0.5 true => none
own 1 p.0,5 true => none
own 1 P.0.5 true => none
own 1 F.0.5.1 true => none
own 1 .0.5 true => none
own 1 .p.0.5 true => none
own 1 . true => none
own 1  true => none
own 1 true => none
own 1 p.0a.5 true => none
own 1 f.0.5.1a true => none
own 1 p.x61.5 true => none
own 1 f.0.5.x61 true => none
own 1 f.1.x6.2 true => none
own 1 f.1.x6A.2 true => none
own 1 f.1.xff.2 true => none
own 1 f.1.X61.2 true => none
write 1 p.0.5.1 true => none
write 1 f.0.5 true => none
read 1 p.0.5.1 0 1 0 true => none
read 1 f.0.5 0 1 0 true => none
read 1 p..5 0 1 0 true => none
read 1  0 1 0 true => none
"#;

// Blanks, words that are missing or too many, and words that lines may not begin with.
const FORMS: &str = "
 => none
  => none
open => none
open  => none
open 1  => none
open  1 => none
 open 1 => none
open 1 1 => none
open1 => none
open\t1 => none
open 1\t => none
open 1\r => none
open 10  => none
open 4294967295  => none
look 1 => none
look 1  => none
look 1 10  => none
look 1  10 => none
look  1 10 => none
look 1 10   => none
look 1 10 0 => none
look 1 x61 => none
define 1 => none
define 1  => none
define 1 74 => none
define 1 x74  => none
define 1  x74 => none
define 1 x74 x => none
define 1 x7 => none
define 1 x7A => none
define 1 xff => none
begin 1 => none
begin 1  => none
begin 1 RC => none
begin 1 si => none
begin 1 rc  => none
begin 1  rc => none
begin 1 rcc => none
begin rc 1 => none
scan 1 => none
scan 1  => none
scan 1 0  => none
scan 1  0 => none
scan 1 0  1 => none
scan 1 0 1  => none
read 1 p.0.1 0 1 0 => none
read 1 p.0.1 0 1 0  => none
read 1 p.0.1 0 1 true => none
read 1 p.0.1 0 1 0 true  => none
read 1 p.0.1 0 1 0  true => none
read 1 p.0.1  0 1 0 true => none
read 1  p.0.1 0 1 0 true => none
read 1 p.0.1 0 1 0 true true => none
read p.0.1 0 1 0 true => none
own 1 p.0.5 => none
own 1 p.0.5  => none
own 1 p.0.5  true => none
own 1 p.0.5 true  => none
own 1  p.0.5 true => none
own 1 p.0.5 true true => none
write 1 f.0.1.1 10  => none
write 1 f.0.1.1  10 => none
commit => none
commit 1 1 => none
rollback 1  => none
show 1 => none
show 1 17  => none
Open 1 => none
OPEN 1 => none
Read 1 p.0.1 0 1 0 true => none
ope 1 => none
opens 1 => none
opem 1 => none
wrote 1 p.0.1 true => none
abort 1 => none
begins 1 rc => none
1 open => none
initial p.0.1 true => none
monkey-log 2 cc => none
";

/// Each kind of event.
pub fn kinds() -> &'static str {
    KINDS
}

/// Numbers.
pub fn numbers() -> &'static str {
    NUMBERS
}

/// Integers as the value of a field.
pub fn integers() -> &'static str {
    INTEGERS
}

/// Values of the other kinds.
pub fn values() -> &'static str {
    VALUES
}

/// Keys, in a scan's list and in a cell.
pub fn keys() -> &'static str {
    KEYS
}

/// Cells.
pub fn cells() -> &'static str {
    CELLS
}

/// Blanks and words.
pub fn forms() -> &'static str {
    FORMS
}
