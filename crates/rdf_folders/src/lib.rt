//! The racks of a system over folders of the operating system.
#![tactic(auto)]

ghost use Rattle.std.specs.Prelude.{◌≡◌, length, IfOk};
ghost use Rattle.rdf_system.specs.Place.{IsFull};
ghost use Rattle.system_folder.specs.Names.{folder_of};
ghost use Rattle.rdf_folders.specs.FolderNames.{folder_name, folder_names, folders_of, AreIn};

use rdf_system::Racks;
use std::alloc::AllocError;
use std::fs::{File, Files};
use system_folder::{DirDisk, dir_disk};

/// A primary and two backups whose disk `d` is the folder named by the node's letter and `d`, as `b1`, in the folder `dir`. Nothing is touched yet.
pub fn folder_racks<R: Files<File = File> + AllocGlobal + Copy + Clone + Drop>(
    rt: &R,
    dir: &str,
) -> Result<Racks<DirDisk<R>>, AllocError>
    ensures full { IfOk result IsFull }
    ensures named { IfOk result (AreIn dir.now) }
{
    let primary = folder_disks(rt, dir, "a")?;
    let mut backups = Vec::new(rt.alloc());
    backups.push(folder_disks(rt, dir, "b")?)?;
    backups.push(folder_disks(rt, dir, "c")?)?;
    Ok(Racks { primary, backups })
}

#[tactic(auto, using(crate::proofs::FolderLaws::one_more))]
fn folder_disks<R: Files<File = File> + AllocGlobal + Copy + Clone + Drop>(
    rt: &R,
    dir: &str,
    node: &str,
) -> Result<Vec<DirDisk<R>>, AllocError>
    ensures many { IfOk result (λ disks. length disks.items ≡ 17) }
    ensures named { IfOk result (λ disks. folders_of disks.items ≡ folder_names dir.now node.now 17) }
{
    let mut disks = Vec::new(rt.alloc());
    for disk in 0..17u8 {
        disks.push(folder_disk(rt, dir, node, disk)?)?;
    }
    Ok(disks)
}

fn folder_disk<R: Files<File = File> + AllocGlobal + Copy + Clone + Drop>(
    rt: &R,
    dir: &str,
    node: &str,
    disk: u8,
) -> Result<DirDisk<R>, AllocError>
    ensures { IfOk result (λ made. folder_of made ≡ folder_name dir.now node.now disk) }
{
    let name = format!(in rt.alloc(); "{dir}/{node}{disk}")?;
    dir_disk(*rt, name)
}
