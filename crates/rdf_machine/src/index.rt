//! An index of a trail's images, and values of the past.
ghost use Rattle.std.specs.Prelude.{◌≡◌, ◌≤◌, List, ◌++◌, take, option_copied, length, IfOk, OnOk, OnErr};
ghost use Rattle.rdf_types.specs.declared.records.RecKey.{RecKey as Place};
ghost use Rattle.rdf_types.specs.declared.records.Record.{Record as AnyRecord};
ghost use Rattle.rdf_model.specs.Contents.{nothing, place};
ghost use Rattle.rdf_model.specs.Trail.{raw};
ghost use Rattle.rdf_machine.specs.Images.{after_of, here, left_by, positions_in, AreImages};
ghost use Rattle.rdf_machine.specs.Index.{IsIndexOf};

use crate::images::Images;
use rdf_types::names::{FileName, Key, Value};
use rdf_types::records::{Pos, RecKey, Record, VolNo, copy_of};
use std::alloc::{AllocError, Global};

/// The images of the first records of a trail, by place.
///
/// Records are noted where a value is asked for, each of them once.
#[derive(Drop)]
pub struct TrailIndex {
    images: Images,
    /// Up to where the records were noted.
    noted: Pos,
}

impl TrailIndex {
    /// No record was noted, so it is an index of any trail.
    pub fn new(alloc: Global) -> TrailIndex
        ensures { (trail : List AnyRecord) → IsIndexOf trail result }
    {
        TrailIndex {
            images: Images::new(alloc),
            noted: 0,
        }
    }

    /// The value at a place after so many records, at the cost of a search, and of noting the records that were not noted
    /// before. An `Err` is want of memory.
    pub fn value_at(
        &mut self,
        trail: &[Record],
        upto: Pos,
        key: &RecKey,
    ) -> Result<Option<Value>, AllocError>
        requires { IsIndexOf trail.now self.old }
        ensures value { IfOk result (λ value. value ≡ raw nothing (take upto trail.now) key.now) }
        ensures index { IsIndexOf trail.now self.new }
    {
        let to = upto.min(trail.len() as u64);
        note_up_to(&mut self.images, &mut self.noted, trail, to)?;
        let image = self.images.last_below(key, upto);
        copy_of(left_by(trail, image))
    }
}

/// Notes the records before a position. After an `Err` some first ones of them are noted.
fn note_up_to(
    images: &mut Images,
    noted: &mut Pos,
    trail: &[Record],
    to: Pos,
) -> Result<(), AllocError>
    requires images { AreImages trail.now noted.old images.old }
    requires within { to ≤ length trail.now }
    ensures images { AreImages trail.now noted.new images.new }
    ensures ok { OnOk result (to ≤ noted.new) }
{
    while *noted < to {
        let pos = *noted;
        note_one(images, pos, &trail[pos as usize])?;
        *noted = pos + 1;
    }
    Ok(())
}

fn note_one(images: &mut Images, pos: Pos, rec: &Record) -> Result<(), AllocError>
    ensures ok { OnOk result ((q : Place) → positions_in images.new q ≡ positions_in images.old q ++ here q pos rec.now) }
    ensures err { OnErr result (images.new ≡ images.old) }
{
    match rec {
        Record::Image { vol, file, key, .. } => {
            let place = place_of(*vol, file, key)?;
            images.push(place, pos)
        }
        Record::Commit { .. } => Ok(()),
        Record::Abort { .. } => Ok(()),
    }
}

fn place_of(vol: VolNo, file: &FileName, key: &Key) -> Result<RecKey, AllocError>
    ensures { IfOk result (λ k. k ≡ place vol file.now key.now) }
{
    let file = file.try_clone()?;
    let key = key.try_clone()?;
    Ok(RecKey { vol, file, key })
}

/// The value that the image at the position left.
fn left_by(trail: &[Record], image: Option<Pos>) -> Option<&Value>
    ensures { option_copied result ≡ left_by trail.now image }
{
    let pos = image?;
    after_of(trail.get(pos as usize)?)
}

/// The value that an image leaves.
fn after_of(rec: &Record) -> Option<&Value>
    ensures { option_copied result ≡ after_of rec.now }
{
    match rec {
        Record::Image { after, .. } => after.as_ref(),
        Record::Commit { .. } => None,
        Record::Abort { .. } => None,
    }
}
