//! The whole system over disks of one's own: a plan in a string, its replies, and how often each disk was written and synced.
#![tactic(auto)]

mod counting_disk;

use counting_disk::CountingDisk;
use rdf_run::{Ended, MemSink, MemSource, NoGate, Node, Racks, full_racks, run_rdf};
use std::alloc::{AllocError, Global};
use std::io;
use std::io::Write;
use std::process::ExitCode;
use std::sync::Wait;
use std::thread::Threads;

const PLAN: &str = "rdfplan 1
backups 1
volumes 1
trail 0
protect 1
extent 1
retain 2
go
begin 1
insert 1 0 f k1 10
commit 1
send b 64
deliver b 0
lose
takeover b
list b 0
";

fn main(rt: HostRuntime) -> io::Result<ExitCode> {
    let alloc = rt.alloc();
    let mut replies = MemSink::new(alloc, Vec::new(alloc));
    let ended = perform(&rt, alloc, &mut replies)?;
    io::writer(&rt).write_all(replies.written())?;
    print_counts(&rt, &ended.racks)?;
    Ok(ExitCode::from(ended.status.number()))
}

/// Performs the plan over full racks of counting disks.
fn perform<R: Threads + Wait + Sync>(
    threads: &R,
    alloc: Global,
    replies: &mut MemSink,
) -> Result<Ended<CountingDisk>, AllocError> {
    let words = [String::from_str(alloc, "run")?];
    let mut plan = MemSource::new(Vec::from_slice(alloc, PLAN.as_bytes())?, Vec::new(alloc));
    let racks = full_racks(alloc, |_, _| Ok(CountingDisk::blank(alloc)))?;
    Ok(run_rdf(threads, alloc, &words, &mut plan, replies, racks, &NoGate))
}

fn print_counts(rt: &HostRuntime, racks: &Racks<CountingDisk>) -> io::Result<()> {
    print_rack(rt, Node::A, &racks.primary)?;
    for (node, disks) in [Node::B, Node::C].into_iter().zip(racks.backups.iter()) {
        print_rack(rt, node, disks)?;
    }
    Ok(())
}

/// A line for each disk of the node that was written.
fn print_rack(rt: &HostRuntime, node: Node, disks: &[CountingDisk]) -> io::Result<()> {
    for (number, disk) in disks.iter().enumerate() {
        let writes = disk.writes();
        let syncs = disk.syncs();
        if writes > 0 {
            println!(rt; "{node}{number}: {writes} writes, {syncs} syncs")?;
        }
    }
    Ok(())
}
