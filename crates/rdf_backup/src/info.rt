//! What a backup tells of each volume.
ghost use Rattle.std.specs.Prelude.{◌≡◌, length, map, IfOk};
ghost use Rattle.plan_lang.specs.declared.lines.Line.TheVariants as line;
ghost use Rattle.rdf_types.specs.declared.records.Node.{Node as AnyNode};
ghost use Rattle.rdf_core.specs.Backup.{volume_infos};
ghost use Rattle.rdf_volume.specs.Views.{restart_of};

use crate::backup::Backup;
use rdf_core::replies::{NoWhy, Reply, VolInfo, VolInfos};
use rdf_disk::Disk;
use rdf_types::layout::Layout;
use rdf_types::records::Phase;
use rdf_volume::Volume;
use std::alloc::{AllocError, Global};

/// The image trail, the protection and the restart point of each volume.
fn infos_of<D: Disk>(
    alloc: Global,
    layout: &Layout,
    volumes: &[Volume<D>],
) -> Result<Vec<VolInfo>, AllocError>
    requires many { length volumes.now ≡ layout.now.volumes }
    ensures { IfOk result (λ infos. infos.items ≡
        volume_infos layout.now.trail_of layout.now.protect (map (λ volume. restart_of volume) volumes.now)) }
{
    let trails = layout.trail_of.numbers();
    let flags = layout.protect.flags();
    let mut infos = Vec::new(alloc);
    for (number, volume) in volumes.iter().enumerate() {
        infos.push(VolInfo {
            trail: trails[number],
            protect: flags[number],
            at: volume.restart_point(),
        })?;
    }
    Ok(infos)
}

impl<D: Disk> Backup<D> {
    ghost use Rattle.rdf_core.specs.Backup.{Around, needs_volumes};
    ghost use Rattle.rdf_backup.specs.States.{state_of, Serves};
    ghost use Rattle.rdf_backup.specs.Replies.{Goes};
    ghost use Rattle.rdf_backup.specs.Answers.{IsNoStop};
    ghost use Rattle.rdf_backup.specs.Refusals.{AnswersUnless, IsInfo};

    /// The line `info`: it calls no disk.
    pub fn info(&self) -> Result<Reply, AllocError>
        ensures goes { D.tells → IfOk result (λ reply. (w : Around) (node : AnyNode) → Serves D.files w.trail self.now →
            Goes D.files w (line.Info node) reply self.now self.now) }
        ensures plain { IfOk result IsNoStop }
        ensures said { AnswersUnless (needs_volumes (state_of 0 self.now)) (IsInfo self.now) result }
    {
        if let Phase::Taking = self.trails.phase() {
            return Ok(Reply::No { why: NoWhy::Taking });
        }
        let volumes = infos_of(
            self.trails.alloc(),
            self.trails.layout(),
            self.volumes.as_slice(),
        )?;
        Ok(Reply::Info {
            volumes: VolInfos::new(volumes),
        })
    }
}
