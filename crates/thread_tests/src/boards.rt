//! A board that is filled, asked and finished.
ghost use Rattle.std.specs.Prelude.{◌≡◌, length, IfOk};
ghost use Rattle.rdf_types.specs.Entries.{Rises};

use crate::fixtures::image;
use image_board::Board;
use rdf_disk::MemDisk;
use rdf_types::records::{Pos, Record, Stamped, TxnId, VolNo};
use seated_lock::Told;
use std::alloc::Global;
use std::test::Fail;
use updaters::VolumeNote;

/// What is asked: a volume, a position, how many at the most. And the answer: the positions of the images, up to where
/// they go, and whether nothing is behind them.
type Asked = (VolNo, Pos, u32, &'static [Pos], Pos, bool);

/// The board goes from 1 to 10. Volume 0 has images at 2, 5 and 8, volume 1 has one at 3, and 6 is a commit.
const ASKED: [Asked; 13] = [
    (VolNo(0), 1, 1, &[2], 3, false),
    (VolNo(0), 2, 1, &[2], 3, false),
    (VolNo(0), 3, 1, &[5], 6, false),
    (VolNo(0), 4, 1, &[5], 6, false),
    (VolNo(0), 6, 1, &[8], 10, true),
    (VolNo(0), 9, 1, &[], 10, true),
    (VolNo(0), 10, 1, &[], 10, true),
    (VolNo(0), 1, 2, &[2, 5], 6, false),
    (VolNo(0), 3, 2, &[5, 8], 10, true),
    (VolNo(0), 1, 16, &[2, 5, 8], 10, true),
    (VolNo(1), 1, 1, &[3], 5, false),
    (VolNo(1), 1, 2, &[3], 10, true),
    (VolNo(1), 4, 16, &[], 10, true),
];

/// The entries below 4.
fn first_part(alloc: Global) -> Result<Vec<Stamped>, Fail>
    ensures { IfOk result (λ part. Rises 1 part.items 4) }
{
    let mut part = Vec::new(alloc);
    part.push(image(alloc, 2, VolNo(0), b"1")?)?;
    part.push(image(alloc, 3, VolNo(1), b"1")?)?;
    Ok(part)
}

/// The entries from 4 on.
fn second_part(alloc: Global) -> Result<Vec<Stamped>, Fail>
    ensures { IfOk result (λ part. Rises 4 part.items 10 × (length part.items ≡ 3)) }
{
    let mut part = Vec::new(alloc);
    part.push(image(alloc, 5, VolNo(0), b"1")?)?;
    part.push(Stamped {
        pos: 6,
        rec: Record::Commit { txn: TxnId(1) },
    })?;
    part.push(image(alloc, 8, VolNo(0), b"1")?)?;
    Ok(part)
}

/// Whether the board answers so.
fn answers(board: &Board<VolumeNote<MemDisk>>, asked: &Asked, finished: bool) -> Result<bool, Fail>
    requires { board.now.start ≡ 1 }
{
    let (vol, from, most, positions, upto, last) = *asked;
    if from < 1 || most < 1 || board.number() < from {
        return Ok(false);
    }
    let piece = board.next_for(vol, from, most)?;
    let found = piece.images.iter().map(|image| image.pos);
    Ok(
        found.eq(positions.iter().copied())
            && piece.upto == upto
            && piece.ended == (finished && last),
    )
}

#[test]
fn pieces_of_a_volume(rt: HostRuntime) -> Result<(), Fail> {
    let alloc = rt.alloc();
    let notes: Vec<VolumeNote<MemDisk>> = Vec::new(alloc);
    let mut board = Board::start(alloc, first_part(alloc)?, 1, 4, notes);
    board.reserve(3)?;
    board.publish(second_part(alloc)?, 10);
    for asked in &ASKED {
        assert!(rt; answers(&board, asked, false)?, "{asked:?}");
    }
    board.finish();
    for asked in &ASKED {
        assert!(rt; answers(&board, asked, true)?, "{asked:?}");
    }
    Ok(())
}
