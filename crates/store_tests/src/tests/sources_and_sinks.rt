use rdf_ports::{
    Failed, Gate, MemSink, MemSource, NoGate, ReadAllFault, Sink, Source, StdSink, StdSource,
    read_all, write_all,
};
use rdf_types::records::VolNo;
use std::alloc::{AllocError, Global};
use std::test::Fail;

fn source(alloc: Global, bytes: &[u8], fails: &[u64]) -> Result<MemSource, AllocError> {
    Ok(MemSource::new(bytes.to_vec(alloc)?, fails.to_vec(alloc)?))
}

fn pieces() -> &'static [(Result<usize, Failed>, &'static [u8; 3])] {
    &[
        (Ok(3), b"abc"),
        (Err(Failed), b"..."),
        (Ok(3), b"def"),
        (Ok(2), b"gh."),
        (Err(Failed), b"..."),
        (Ok(0), b"..."),
        (Ok(0), b"..."),
        (Err(Failed), b"..."),
        (Ok(0), b"..."),
    ]
}

// Pieces of three bytes, and what a listed call does to them: it takes nothing, and the next goes on.
#[test]
fn a_source_gives_pieces(rt: HostRuntime) -> Result<(), Fail> {
    let mut source = source(rt.alloc(), b"abcdefgh", &[1, 4, 7])?;
    for (answer, bytes) in pieces() {
        let mut into = *b"...";
        assert!(rt; source.read(&mut into) == *answer);
        assert!(rt; into == **bytes);
    }
    Ok(())
}

fn lengths() -> &'static [(usize, u32, &'static [u64], Option<ReadAllFault>)] {
    &[
        (0, 0, &[], None),
        (1, 0, &[], Some(ReadAllFault::TooLong)),
        (5, 5, &[], None),
        (6, 5, &[], Some(ReadAllFault::TooLong)),
        (5, u32::MAX, &[], None),
        (20_000, 20_000, &[9], None),
        (20_000, 20_000, &[0], Some(ReadAllFault::Failed)),
        (20_000, 20_000, &[3], Some(ReadAllFault::Failed)),
        (1_048_576, 1_048_576, &[], None),
        (1_048_577, 1_048_576, &[], Some(ReadAllFault::TooLong)),
    ]
}

// Whether so many bytes are read, or the fault is told.
fn is_read(
    alloc: Global,
    length: usize,
    limit: u32,
    fails: &[u64],
    fault: Option<ReadAllFault>,
) -> Result<bool, AllocError> {
    let bytes = vec![in alloc; 7u8; length]?;
    let mut source = source(alloc, &bytes, fails)?;
    Ok(match read_all(alloc, &mut source, limit) {
        Ok(read) => fault.is_none() && read == bytes,
        Err(found) => fault == Some(found),
    })
}

#[test]
fn a_source_is_read_to_its_end(rt: HostRuntime) -> Result<(), Fail> {
    for (length, limit, fails, fault) in lengths() {
        let answered = is_read(rt.alloc(), *length, *limit, fails, *fault)?;
        assert!(rt; answered, "{length} {limit}");
    }
    Ok(())
}

// No more than one byte past the limit is taken.
#[test]
fn one_byte_more_is_taken(rt: HostRuntime) -> Result<(), Fail> {
    let mut source = source(rt.alloc(), b"abcdefgh", &[])?;
    let fault = read_all(rt.alloc(), &mut source, 5).err();
    assert!(rt; fault == Some(ReadAllFault::TooLong));
    let rest = read_all(rt.alloc(), &mut source, 5)?;
    assert!(rt; rest.as_slice() == b"gh".as_slice());
    Ok(())
}

fn writes() -> &'static [(&'static [u8], Result<(), Failed>, &'static [u8])] {
    &[
        (b"ab", Ok(()), b"ab"),
        (b"cd", Err(Failed), b"ab"),
        (b"", Ok(()), b"ab"),
        (b"ef", Err(Failed), b"ab"),
        (b"ghi", Ok(()), b"abghi"),
    ]
}

// The listed calls append nothing, and the next go on.
#[test]
fn a_sink_keeps_what_is_written(rt: HostRuntime) -> Result<(), Fail> {
    let mut sink = MemSink::new(rt.alloc(), [1, 2].to_vec(rt.alloc())?);
    for (bytes, answer, written) in writes() {
        assert!(rt; write_all(&mut sink, bytes) == *answer);
        assert!(rt; sink.written() == *written);
    }
    assert!(rt; sink.write(b"j") == Ok(1));
    assert!(rt; sink.refused() == 0);
    Ok(())
}

const TEXT: &[u8] = b"rdfplan 1";

#[test]
fn std_reader(rt: HostRuntime) -> Result<(), Fail> {
    let mut source = StdSource::new(TEXT);
    let read = read_all(rt.alloc(), &mut source, 9)?;
    assert!(rt; read.as_slice() == TEXT);
    assert!(rt; source.into_inner() == b"".as_slice());
    Ok(())
}

#[test]
fn std_writer(rt: HostRuntime) {
    let mut sink = StdSink::new(Vec::new(rt.alloc()));
    assert!(rt; write_all(&mut sink, TEXT) == Ok(()));
    assert!(rt; sink.into_inner().as_slice() == TEXT);
}

// A writer that has room for six bytes takes them, and then nothing.
#[test]
fn a_prefix_is_written(rt: HostRuntime) {
    let mut room = [0u8; 6];
    let mut sink = StdSink::new(&mut room as &mut [u8]);
    assert!(rt; write_all(&mut sink, b"abcd") == Ok(()));
    assert!(rt; write_all(&mut sink, b"efgh") == Err(Failed));
    assert!(rt; room == *b"abcdef");
}

fn pass<G: Gate + Sync>(gate: &G) {
    gate.before_apply(VolNo(0));
}

#[test]
fn a_gate_is_shared() {
    pass(&NoGate);
}
