//! The plainest plan over folders, and what is said on standard error.
use plan_lang::PlanWhy;
use rdf_folders::folder_racks;
use rdf_ports::{MemSink, MemSource, NoGate};
use rdf_run::{Status, run_rdf};
use rdf_types::records::Node;
use std::alloc::{AllocError, Global};
use std::fs;
use std::sync::Wait;
use std::test::Fail;
use std::thread::Threads;

const PLAN: &[u8] =
    b"rdfplan 1\nbackups 1\nvolumes 1\ntrail 0\nprotect 1\nextent 1\nretain 2\ngo\nbegin 1\ninsert 1 0 f k1 10\ncommit 1\nsend b 64\ndeliver b 0\nlose\ntakeover b\nlist b 0\n";

const REPLIES: &[u8] = b"ok\nok 1\nok 2\nok 0 0 2\nok 2\nok\nok 2\nok 2 1\nf k1 10\n";

// A log of two blocks: the image of an insert of key k1 and value 10 in file f, and a commit of transaction 1.
const TRAIL: &[u8] =
    b"\x01\x00\x00\x00\x10\x01\x00\x00\x00\x01\x00\x01f\x02k1\x00\x01\x0210\x01\x00\x00\x00\x05\x02\x00\x00\x00\x01\x00";

fn words(alloc: Global) -> Result<Vec<String>, AllocError> {
    let mut words = Vec::new(alloc);
    for word in ["run", "--dir", "disks"] {
        words.push(String::from_str(alloc, word)?)?;
    }
    Ok(words)
}

fn run_in_folders<R: Threads + Wait + Sync>(
    rt: &HostRuntime,
    threads: &R,
    replies: &mut MemSink,
) -> Result<Status, AllocError> {
    let alloc = rt.alloc();
    let mut plan = MemSource::new(Vec::from_slice(alloc, PLAN)?, Vec::new(alloc));
    let words = words(alloc)?;
    let racks = folder_racks(rt, "disks")?;
    let ended = run_rdf(threads, alloc, &words, &mut plan, replies, racks, &NoGate);
    Ok(ended.status)
}

#[test]
fn plainest_by_folders(rt: HostRuntime) -> Result<(), Fail> {
    let alloc = rt.alloc();
    let mut replies = MemSink::new(alloc, Vec::new(alloc));
    assert_eq!(rt; run_in_folders(&rt, &rt, &mut replies)?, Status::Done);
    assert_eq!(rt; replies.written(), REPLIES);
    let trail = fs::read(&rt, "disks/a0/0")?;
    assert_eq!(rt; trail.as_slice(), TRAIL);
    Ok(())
}

// Each status with what is said of it.
const REPORTS: &[(Status, &str)] = &[
    (Status::Done, ""),
    (
        Status::BadWords,
        "rdf: bad words\nusage: rdf run\nusage: rdf run --dir D\nusage: rdf predict\nusage: rdf make SEED TXNS",
    ),
    (
        Status::BadPlan {
            line: 17,
            why: PlanWhy::SessionOpen,
        },
        "rdf: line 17: SessionOpen",
    ),
    (Status::ReadFault, "rdf: cannot read the plan"),
    (Status::WriteFault, "rdf: cannot write"),
    (
        Status::DeviceFault {
            node: Node::C,
            disk: 16,
        },
        "rdf: device fault at c disk 16",
    ),
    (Status::NoMemory, "rdf: no memory"),
    (
        Status::Damaged {
            node: Node::A,
            disk: 1,
            file: 2,
            at: 30,
        },
        "rdf: damaged a disk 1 file 2 at 30",
    ),
    (
        Status::NotBlank {
            node: Node::B,
            disk: 0,
        },
        "rdf: not blank b disk 0",
    ),
    (Status::TooLong, "rdf: plan too long"),
    (
        Status::StoppedEarly {
            node: Node::B,
            disk: 3,
        },
        "rdf: stopped early b disk 3",
    ),
];

#[test]
fn reports(rt: HostRuntime) -> Result<(), Fail> {
    for (status, said) in REPORTS {
        let text = to_text(rt.alloc(), *status)?;
        assert_eq!(rt; text.as_str(), *said);
    }
    Ok(())
}

fn to_text(alloc: Global, status: Status) -> Result<String, AllocError> {
    format!(in alloc; "{status}")
}
