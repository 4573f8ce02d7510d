//! Blocks of volumes that are none.
use rdf_codec::fault::CodecFault;
use rdf_codec::volume_blocks::read_volume_block;

fn faults() -> &'static [(&'static [u8], CodecFault)] {
    &[
        (&[], CodecFault::Truncated { at: 0 }),
        (&[32], CodecFault::BadKind { at: 0 }),
        (&[37], CodecFault::BadKind { at: 0 }),
        (&[33, 0], CodecFault::Truncated { at: 2 }),
        // A block of no rows, a batch of 65 changes.
        (&[33, 0, 0], CodecFault::BadNumber { at: 1 }),
        (
            &[35, 0, 0, 0, 0, 0, 0, 0, 3, 0, 65],
            CodecFault::BadNumber { at: 9 },
        ),
        // An index of no entries, one whose entry ends with its place, and a byte behind one of one entry.
        (&[36, 0, 0], CodecFault::BadNumber { at: 1 }),
        (
            &[36, 0, 1, 0, 0, 0, 0, 0, 0, 0, 9],
            CodecFault::Truncated { at: 11 },
        ),
        (
            &[36, 0, 1, 0, 0, 0, 0, 0, 0, 0, 9, 1, 0x66, 1, 0x6b, 0],
            CodecFault::Extra { at: 15 },
        ),
        // A row whose place is that of the one before it, though its value is bad too; and one whose value alone is bad.
        (
            &[33, 0, 2, 1, 0x66, 1, 0x6b, 1, 0x31, 1, 0x66, 1, 0x6b, 0],
            CodecFault::BadNumber { at: 9 },
        ),
        (
            &[33, 0, 2, 1, 0x66, 1, 0x6b, 1, 0x31, 1, 0x66, 1, 0x6c, 0],
            CodecFault::BadNumber { at: 13 },
        ),
        // A greater key in a lesser file.
        (
            &[
                33, 0, 2, 1, 0x66, 1, 0x6b, 1, 0x31, 1, 0x65, 1, 0x7a, 1, 0x31,
            ],
            CodecFault::BadNumber { at: 9 },
        ),
        // A byte behind an end, and behind a batch of no changes.
        (
            &[34, 0, 0, 0, 0, 0, 0, 0, 0, 0, 0, 0, 0, 0, 0, 0, 0, 0],
            CodecFault::Extra { at: 17 },
        ),
        (
            &[35, 0, 0, 0, 0, 0, 0, 0, 3, 0, 0, 0],
            CodecFault::Extra { at: 11 },
        ),
        // A tag that is neither 0 nor 1.
        (
            &[35, 0, 0, 0, 0, 0, 0, 0, 3, 0, 1, 1, 0x66, 1, 0x6b, 2],
            CodecFault::BadKind { at: 15 },
        ),
    ]
}

#[test]
fn first_faults(rt: HostRuntime) {
    for (bytes, fault) in faults() {
        assert!(rt; matches!(read_volume_block(rt.alloc(), bytes), Err(found) if found == *fault));
    }
}

// Too many bytes for a block of rows are told before anything else that is wrong with them.
#[test]
fn a_long_block_of_rows(rt: HostRuntime) {
    let bytes = [33; 4097];
    let read = read_volume_block(rt.alloc(), &bytes);
    assert!(rt; matches!(read, Err(CodecFault::BadNumber { at: 0 })));
    let read = read_volume_block(rt.alloc(), &bytes[..4096]);
    assert!(rt; matches!(read, Err(CodecFault::BadNumber { at: 3 })));
}
