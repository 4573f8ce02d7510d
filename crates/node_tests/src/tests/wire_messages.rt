//! Messages of the wire that are read and written, and the first fault of bytes that are none.
use rdf_codec::fault::CodecFault;
use rdf_wire::{Message, read_message, write_message};
use std::alloc::Global;
use std::process::Abort;
use std::test::Fail;

#[test]
fn messages_read_and_written(rt: HostRuntime) -> Result<(), Fail> {
    let alloc = rt.alloc();
    again(&rt, alloc, &[50, 0, 0, 0, 0, 0, 0, 0, 5])?;
    // A shipment of the positions 3 and 4 without a record.
    again(
        &rt,
        alloc,
        &[49, 0, 0, 0, 0, 0, 0, 0, 3, 0, 0, 0, 0, 0, 0, 0, 5, 0, 0],
    )?;
    let ack = read_message(alloc, &[50, 0, 0, 0, 0, 0, 0, 0, 5])?;
    assert!(rt; ack == Message::Ack { received: 5 });
    Ok(())
}

fn again(rt: &impl Abort, alloc: Global, bytes: &[u8]) -> Result<(), Fail> {
    let message = read_message(alloc, bytes)?;
    let mut out = Vec::new(alloc);
    write_message(&message, &mut out)?;
    assert!(rt; out.as_slice() == bytes);
    Ok(())
}

#[test]
fn first_faults(rt: HostRuntime) {
    let cases: [(&[u8], CodecFault); 4] = [
        (&[48], CodecFault::BadKind { at: 0 }),
        (&[50, 0, 0], CodecFault::Truncated { at: 3 }),
        (
            &[50, 0, 0, 0, 0, 0, 0, 0, 5, 9],
            CodecFault::Extra { at: 9 },
        ),
        // A shipment that covers no position: its end stands at place 9 of the message.
        (
            &[49, 0, 0, 0, 0, 0, 0, 0, 3, 0, 0, 0, 0, 0, 0, 0, 3],
            CodecFault::BadNumber { at: 9 },
        ),
    ];
    for (bytes, fault) in cases {
        assert!(rt; matches!(read_message(rt.alloc(), bytes), Err(found) if found == fault));
    }
}
