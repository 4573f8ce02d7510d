//! What volumes of a backup show, built from the trail.
ghost use Rattle.std.specs.Prelude.{◌≡◌, take, IfOk};
ghost use Rattle.rdf_core.specs.Effects.{IsDone};
ghost use Rattle.rdf_core.specs.Layouts.{protects};
ghost use Rattle.rdf_core.specs.Rows.{AreRowsOf};
ghost use Rattle.rdf_core.specs.Backup.{list_refusal, listed_at, says_rows, shown_on};
ghost use Rattle.rdf_model.specs.Contents.{held, nothing};
ghost use Rattle.rdf_model.specs.Legal.{Legal};
ghost use Rattle.backup_machine.specs.Kept.{backup_of};

use crate::backup::BackupState;
use crate::volumes::VolumesState;
use rdf_core::replies::{NoWhy, Reply, RowList};
use rdf_model::files::Files;
use rdf_model::laws::{prefix_is_legal, rows_listed};
use rdf_model::plain::raw_of;
use rdf_model::settled::settled_of;
use rdf_types::layout::Layout;
use rdf_types::records::{Pos, Record, Row, VolNo};
use std::alloc::{AllocError, Global};

/// The first records of a trail.
fn first_of(trail: &[Record], upto: Pos) -> &[Record]
    ensures { result.now ≡ take upto trail.now }
{
    if upto < trail.len() as u64 {
        &trail[..upto as usize]
    } else {
        trail
    }
}

/// The rows of a volume, in the order of file and key.
fn rows_of(alloc: Global, files: &Files, vol: VolNo) -> Result<Vec<Row>, AllocError>
    ensures { IfOk result (λ rows. AreRowsOf vol (held files.now) rows.items) }
{
    rows_listed();
    files.rows(alloc, vol)
}

impl BackupState {
    /// What the volume shows.
    fn shown(&self, layout: &Layout, trail: &[Record], vol: VolNo) -> Result<Files, AllocError>
        requires { Legal nothing trail.now }
        ensures { IfOk result (λ files. held files ≡ shown_on layout.now trail.now (backup_of self.now).volumes vol) }
    {
        let none = Files::new(self.alloc);
        match &self.volumes {
            VolumesState::Running { points } => {
                raw_of(&none, first_of(trail, points.get(vol.number() as usize)))
            }
            VolumesState::Taking => Ok(none),
            VolumesState::Taken { upto } => {
                if is_protected(layout, vol) {
                    prefix_is_legal();
                    settled_of(self.alloc, &none, first_of(trail, *upto))
                } else {
                    Ok(none)
                }
            }
        }
    }

    /// The position that a list of the volume tells.
    fn listed_at(&self, vol: VolNo) -> Pos
        ensures { result ≡ listed_at (backup_of self.now).volumes vol }
    {
        match &self.volumes {
            VolumesState::Running { points } => points.get(vol.number() as usize),
            VolumesState::Taking => 0,
            VolumesState::Taken { upto } => *upto,
        }
    }

    /// Why no rows of the volume are listed.
    fn bar_list(&self, layout: &Layout, vol: VolNo) -> Option<NoWhy>
        ensures { result ≡ list_refusal layout.now (backup_of self.now) vol }
    {
        if let Some(why) = self.taking_over() {
            return Some(why);
        }
        if vol.number() < layout.volumes {
            None
        } else {
            Some(NoWhy::Volume)
        }
    }

    /// The line `list`.
    pub fn list(&self, layout: &Layout, trail: &[Record], vol: VolNo) -> Result<Reply, AllocError>
        requires { Legal nothing trail.now }
        ensures { IfOk result (λ reply. IsDone (list_refusal layout.now (backup_of self.now) vol) (λ _. backup_of self.now) (backup_of self.now)
            (λ r. says_rows layout.now trail.now (backup_of self.now) vol r) reply (backup_of self.now)) }
    {
        if let Some(why) = self.bar_list(layout, vol) {
            return Ok(Reply::No { why });
        }
        let files = self.shown(layout, trail, vol)?;
        let rows = rows_of(self.alloc, &files, vol)?;
        Ok(Reply::Rows {
            at: self.listed_at(vol),
            rows: RowList::new(rows),
        })
    }
}

/// Whether the volume is protected.
pub fn is_protected(layout: &Layout, vol: VolNo) -> bool
    ensures { result ≡ protects layout.now vol }
{
    let flags = layout.protect.flags();
    let vol = vol.number() as usize;
    vol < flags.len() && flags[vol]
}
