//! The stages of a measurement.
ghost use Rattle.std.specs.Prelude.{◌≡◌, ℕ, None, IfOk, OnOk};
ghost use Rattle.rdf_disk.specs.Outcomes.{Durably};
ghost use Rattle.rdf_volume.specs.Standing.{StandsForSome};
ghost use Rattle.rdf_volume.specs.Views.{InUse};

use super::report::Report;
use super::steps::{closed, filled, get_spread, mounted, scanned};
use super::words::{Sizes, Stage};
use rdf_disk::Disk;
use rdf_volume::Volume;
use std::io;

/// Fills a volume.
fn fill<D: Disk + Drop>(report: Report<'_>, sizes: Sizes, disk: D) -> io::Result<Volume<D>>
    requires { D.tells → (m : ℕ) → (D.files disk m).seen ≡ None }
    ensures { D.tells → IfOk result (InUse D.files) }
{
    let begun = report.begin()?;
    let volume = report.end("fill", begun, filled(report.rt.alloc(), disk, sizes.rows))?;
    report.line("fill", "files", volume.file_number())?;
    report.line("fill", "batches", volume.batches())?;
    Ok(volume)
}

fn mount<D: Disk + Drop>(report: Report<'_>, disk: D) -> io::Result<Volume<D>>
    requires { D.tells → Durably (D.files disk) StandsForSome }
    ensures { D.tells → IfOk result (InUse D.files) }
{
    let begun = report.begin()?;
    report.end("mount", begun, mounted(report.rt.alloc(), disk))
}

/// Asks for rows. It tells whether each was found as it was put.
fn get<D: Disk>(report: Report<'_>, sizes: Sizes, volume: &mut Volume<D>) -> io::Result<bool>
    requires { D.tells → InUse D.files volume.old }
    ensures { D.tells → OnOk result (InUse D.files volume.new) }
{
    let begun = report.begin()?;
    let done = get_spread(report.rt.alloc(), volume, sizes, report.reads);
    let found = report.end("gets", begun, done)?;
    report.line("gets", "found", found.right)?;
    report.line("gets", "most reads of one", found.most)?;
    Ok(found.right == sizes.gets)
}

/// Scans the volume. It tells whether it has so many rows.
fn scan<D: Disk>(report: Report<'_>, sizes: Sizes, volume: &mut Volume<D>) -> io::Result<bool>
    requires { D.tells → InUse D.files volume.old }
    ensures { D.tells → OnOk result (InUse D.files volume.new) }
{
    let begun = report.begin()?;
    let rows = report.end("scan", begun, scanned(volume))?;
    report.line("scan", "rows", rows)?;
    Ok(rows == sizes.rows as usize)
}

fn checkpoint<D: Disk>(report: Report<'_>, volume: &mut Volume<D>) -> io::Result<()>
    requires { D.tells → InUse D.files volume.old }
{
    let begun = report.begin()?;
    report.end("checkpoint", begun, volume.checkpoint_from(0))?;
    report.line("checkpoint", "file", volume.file_number())
}

/// All stages, over a disk without files. It tells whether each row was found as it was put.
pub fn all<D: Disk + Drop>(report: Report<'_>, sizes: Sizes, disk: D) -> io::Result<bool>
    requires { D.tells → (m : ℕ) → (D.files disk m).seen ≡ None }
{
    let volume = fill(report, sizes, disk)?;
    let mut volume = mount(report, closed(volume))?;
    let found = get(report, sizes, &mut volume)?;
    let counted = scan(report, sizes, &mut volume)?;
    checkpoint(report, &mut volume)?;
    Ok(found && counted)
}

/// One stage over a folder, whose volume an earlier call filled.
pub fn one<D: Disk + Drop>(
    report: Report<'_>,
    sizes: Sizes,
    disk: D,
    stage: Stage,
) -> io::Result<bool>
    requires { D.tells → ⊥ }
{
    if stage == Stage::Fill {
        fill(report, sizes, disk)?;
        return Ok(true);
    }
    let mut volume = mount(report, disk)?;
    match stage {
        Stage::Fill | Stage::Mount => Ok(true),
        Stage::Gets => get(report, sizes, &mut volume),
        Stage::Scan => scan(report, sizes, &mut volume),
        Stage::Checkpoint => {
            checkpoint(report, &mut volume)?;
            Ok(true)
        }
    }
}
