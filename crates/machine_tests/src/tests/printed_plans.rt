//! Plans, printed and read.
use plan_lang::plan_fault::PlanFault;
use plan_lang::plan_reading::read_plan;
use plan_lang::printing::print_plan;
use std::alloc::Global;
use std::test::Fail;

fn plainest() -> &'static [u8] {
    b"rdfplan 1\nbackups 1\nvolumes 1\ntrail 0\nprotect 1\nextent 1\nretain 2\ngo\nbegin 1\ninsert 1 0 f k1 10\ncommit 1\nsend b 64\ndeliver b 0\nlose\ntakeover b\nlist b 0\n"
}

fn header_alone() -> &'static [u8] {
    b"rdfplan 1\nbackups 2\nvolumes 16\ntrail 0 1 2 3 0 1 2 3 0 1 2 3 0 1 2 3\nprotect 1 0 1 0 1 0 1 0 1 0 1 0 1 0 1 0\nextent 10000\nretain 64\ngo\n"
}

fn purged_in_session() -> &'static [u8] {
    b"rdfplan 1\nbackups 2\nvolumes 1\ntrail 0\nprotect 1\nextent 1\nretain 2\ngo\nbegin 1\ninsert 1 0 f k1 1\ncommit 1\nsend c 3\ndeliver c 0\nsession b\npurge b\ndeliver b 0\nread b 0 f k1\nack c\nrewind c\nend\nlose\ntakeover c\ncopyaudit b c\nlist c 0\nstatus b\n"
}

fn refused() -> &'static [u8] {
    b"rdfplan 1\nbackups 2\nvolumes 2\ntrail 0 1\nprotect 1 1\nextent 4\nretain 2\ngo\nbegin 1\ninsert 1 0 f k 1\nbegin 2\nupdate 2 0 f k 2\nget 2 0 f k\ninsert 1 0 f k 3\ndelete 2 0 f z\nbegin 1\ncommit 9\ninsert 1 2 f k 1\ncommit 1\nupdate 2 0 f k 2\nget 2 0 f k\nabort 2\nbegin 2\nbegin 3\ncommit 3\nbegin 3\nlist a 0\n"
}

fn states() -> &'static [u8] {
    b"rdfplan 1\nbackups 2\nvolumes 2\ntrail 0 1\nprotect 1 1\nextent 4\nretain 2\ngo\ntakeover b\ncopyaudit c b\nlose\nlose\nbegin 1\nrestart a\nstatus a\ninfo c\ncut c\nsession b\nread b 0 f k\nend\nfuse a 0 0 lose\nfuse b 2 1000000 keep\nfuse c 16 7 mix\nrestart b\n"
}

// What reading a text and printing the plan gives.
fn printed(alloc: Global, text: &[u8]) -> Result<Vec<u8>, PlanFault> {
    let plan = read_plan(alloc, text)?;
    let mut out = Vec::from_slice(alloc, b"# ")?;
    print_plan(&plan, &mut out)?;
    Ok(out)
}

fn is_printed_again(alloc: Global, text: &[u8]) -> Result<bool, PlanFault> {
    let out = printed(alloc, text)?;
    Ok(out.strip_prefix(b"# ".as_slice()) == Some(text))
}

#[test]
fn plans_are_read_and_printed(rt: HostRuntime) -> Result<(), Fail> {
    let alloc = rt.alloc();
    assert!(rt; is_printed_again(alloc, plainest())?);
    assert!(rt; is_printed_again(alloc, header_alone())?);
    assert!(rt; is_printed_again(alloc, purged_in_session())?);
    assert!(rt; is_printed_again(alloc, refused())?);
    assert!(rt; is_printed_again(alloc, states())?);
    Ok(())
}
