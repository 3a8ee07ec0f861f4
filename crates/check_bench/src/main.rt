//! Measures a check of a log beside simply reading the file and splitting its lines, in processor time of this thread.
//!
//! With the path of a file it prints what each part takes: the read of the file, the lines that are split off, the one pass over the text with
//! what it says, the text read as a history, and the judgement of that history. A check reads the file and makes the pass. Where the pass says that
//! the log is right, that is all; where it says that the events are, the history is read and its order alone is judged; else the history is read
//! and judged. Without a path it prints its usage: its stored run.
#![tactic(auto)]

use anyhow::Result;
use cell_base::Text;
use link_traits::StdHost;
use std::env;
use std::rt::Env;
use std::time::CpuClock;

mod parts;

fn usage(rt: &impl Print) -> Result<()> {
    println!(rt; "usage: check_bench PATH")?;
    Ok(())
}

fn main(rt: HostRuntime) -> Result<()> {
    let mut words = env::args(&rt)?;
    let _program = words.next();
    match words.next() {
        Some(path) => {
            let Ok(path) = Text::from_bytes(rt.alloc(), path.as_bytes()) else {
                return usage(&rt);
            };
            let mut host = StdHost::new(rt.alloc(), &rt, rt.stdin(), rt.stdout());
            parts::measure(&rt, &mut host, &path)
        }
        None => usage(&rt),
    }
}
