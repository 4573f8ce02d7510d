//! Shipments and blocks of image trails that are none.
use rdf_codec::fault::CodecFault;
use rdf_codec::image_blocks::read_image_block;
use rdf_codec::ships::read_ship;
use std::alloc::{AllocError, Global};
use std::test::Fail;

fn ship_faults() -> &'static [(&'static [u8], CodecFault)] {
    &[
        (&[], CodecFault::Truncated { at: 0 }),
        // No position, 65 of them, an end below the start.
        (
            &[0, 0, 0, 0, 0, 0, 0, 3, 0, 0, 0, 0, 0, 0, 0, 3],
            CodecFault::BadNumber { at: 8 },
        ),
        (
            &[0, 0, 0, 0, 0, 0, 0, 3, 0, 0, 0, 0, 0, 0, 0, 68],
            CodecFault::BadNumber { at: 8 },
        ),
        (
            &[0, 0, 0, 0, 0, 0, 0, 3, 0, 0, 0, 0, 0, 0, 0, 2],
            CodecFault::BadNumber { at: 8 },
        ),
        // 65 records.
        (
            &[0, 0, 0, 0, 0, 0, 0, 3, 0, 0, 0, 0, 0, 0, 0, 67, 0, 65],
            CodecFault::BadNumber { at: 16 },
        ),
        // A byte behind a shipment of no records.
        (
            &[0, 0, 0, 0, 0, 0, 0, 3, 0, 0, 0, 0, 0, 0, 0, 4, 0, 0, 9],
            CodecFault::Extra { at: 18 },
        ),
    ]
}

// Positions 3 to 5 with two commits, the second one at a position.
fn two_commits(alloc: Global, pos: u8) -> Result<Vec<u8>, AllocError> {
    let mut bytes = Vec::new(alloc);
    bytes.extend_from_slice(&[0, 0, 0, 0, 0, 0, 0, 3, 0, 0, 0, 0, 0, 0, 0, 6, 0, 2])?;
    bytes.extend_from_slice(&[0, 0, 0, 0, 0, 0, 0, 4, 2, 0, 0, 0, 1])?;
    bytes.extend_from_slice(&[0, 0, 0, 0, 0, 0, 0, pos, 2, 0, 0, 0, 2])?;
    Ok(bytes)
}

#[test]
fn first_faults(rt: HostRuntime) {
    for (bytes, fault) in ship_faults() {
        assert!(rt; matches!(read_ship(rt.alloc(), bytes), Err(found) if found == *fault));
    }
}

// What is wrong with a shipment of two commits.
fn fault_at(alloc: Global, pos: u8) -> Result<Option<CodecFault>, AllocError> {
    Ok(read_ship(alloc, &two_commits(alloc, pos)?).err())
}

#[test]
fn positions_rise_to_the_end(rt: HostRuntime) -> Result<(), Fail> {
    assert!(rt; fault_at(rt.alloc(), 5)? == None);
    for pos in [3, 4, 6] {
        assert!(rt; fault_at(rt.alloc(), pos)? == Some(CodecFault::BadNumber { at: 31 }));
    }
    Ok(())
}

fn block_faults() -> &'static [(&'static [u8], CodecFault)] {
    &[
        (&[16], CodecFault::BadKind { at: 0 }),
        (&[19, 3], CodecFault::BadKind { at: 1 }),
        (&[19, 1, 0], CodecFault::Extra { at: 2 }),
    ]
}

#[test]
fn first_faults_of_blocks(rt: HostRuntime) {
    for (bytes, fault) in block_faults() {
        assert!(rt; matches!(read_image_block(rt.alloc(), bytes), Err(found) if found == *fault));
    }
}
