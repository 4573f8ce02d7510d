//! Measures turns on a lock, questions to a board and the work of an updater, in nanoseconds, or a volume of many rows; or appends blocks to a disk in memory. The first word is what is measured.
#![tactic(auto)]

mod appends;
mod boards;
mod locks;
mod sessions;
mod volume;

use std::process::ExitCode;
use std::{env, io};

fn main(rt: HostRuntime) -> io::Result<ExitCode> {
    let alloc = rt.alloc();
    let mut words = env::args(&rt)?.skip(1);
    let word = words.next();
    match word.as_deref() {
        Some("appends") => {
            let Some(Ok(count)) = words.next().map(|word| word.parse::<u32>()) else {
                return usage(&rt);
            };
            let Ok(len) = appends::appended(alloc, count) else {
                rt.eprintln("benches: no memory")?;
                return Ok(ExitCode::from(7));
            };
            println!(rt; "{count} appends, {len} bytes")?;
        }
        Some("turns") => {
            let each = locks::turns(&rt, alloc, 7)?;
            println!(rt; "turns 8 {each}")?;
        }
        Some("pair") => {
            let each = locks::turns(&rt, alloc, 1)?;
            println!(rt; "pair 2 {each}")?;
        }
        Some("next") => {
            for count in [1_000, 10_000, 100_000] {
                let each = boards::next(&rt, alloc, count)?;
                println!(rt; "next {count} {each}")?;
            }
        }
        Some("session") => {
            for count in [1_000, 4_000, 16_000] {
                let each = sessions::session(&rt, alloc, count)?;
                println!(rt; "session {count} {each}")?;
            }
        }
        Some("volume") => return volume::measure(&rt),
        _ => return usage(&rt),
    }
    Ok(ExitCode::from(0))
}

fn usage(rt: &HostRuntime) -> io::Result<ExitCode> {
    rt.eprintln(
        "usage: benches appends COUNT | turns | pair | next | session | volume ROWS GETS counts|times [FOLDER [STAGE]]",
    )?;
    Ok(ExitCode::from(2))
}
