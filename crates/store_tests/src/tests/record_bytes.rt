//! Records that are none.
use rdf_codec::fault::CodecFault;
use rdf_codec::reading::read_record;

fn faults() -> &'static [(&'static [u8], CodecFault)] {
    &[
        (&[], CodecFault::Truncated { at: 0 }),
        (&[2, 0, 0], CodecFault::Truncated { at: 3 }),
        (&[4], CodecFault::BadKind { at: 0 }),
        (&[1, 0, 0, 0, 1, 0x10], CodecFault::BadNumber { at: 5 }),
        // No byte of a file's name, and 17 of them.
        (&[1, 0, 0, 0, 1, 0, 0], CodecFault::BadNumber { at: 6 }),
        (&[1, 0, 0, 0, 1, 0, 17], CodecFault::BadNumber { at: 6 }),
        // A capital letter in a file's name, and a space in a key.
        (
            &[1, 0, 0, 0, 1, 0, 2, 0x66, 0x46],
            CodecFault::BadByte { at: 8 },
        ),
        (
            &[1, 0, 0, 0, 1, 0, 1, 0x66, 1, 0x20],
            CodecFault::BadByte { at: 9 },
        ),
        // A text that passes the end is cut off, whatever it has before.
        (
            &[1, 0, 0, 0, 1, 0, 2, 0x46],
            CodecFault::Truncated { at: 8 },
        ),
        // A tag that is neither 0 nor 1, and nothing behind a 1.
        (
            &[1, 0, 0, 0, 1, 0, 1, 0x66, 1, 0x6b, 2],
            CodecFault::BadKind { at: 10 },
        ),
        (
            &[1, 0, 0, 0, 1, 0, 1, 0x66, 1, 0x6b, 1],
            CodecFault::Truncated { at: 11 },
        ),
    ]
}

#[test]
fn first_faults(rt: HostRuntime) {
    for (bytes, fault) in faults() {
        assert!(rt; matches!(read_record(rt.alloc(), bytes), Err(found) if found == *fault));
    }
}
