//! The positions of images, by place.
ghost use Rattle.std.specs.Prelude.{◌≡◌, [], ◌∷◌, ◌++◌, nat_lt, filter, OnOk, OnErr};
ghost use Rattle.std.specs.FinMap as map;
ghost use Rattle.std.specs.List.Sorted.{IsNonDecreasing};
ghost use Rattle.backup_machine.specs.Positions.{last_in};
ghost use Rattle.rdf_machine.specs.Images.{positions_in};

use backup_machine::positions::Positions;
use rdf_types::records::{Pos, RecKey};
use std::alloc::{AllocError, Global};
use std::collections::BTreeMap;
use std::marker::Model;

/// The positions of the images of each place that has one.
#[derive(Drop)]
pub struct Images {
    alloc: Global,
    by_place: BTreeMap<RecKey, Positions>,
}

impl Model for Images {
    ghost use Rattle.std.specs.Coded.{coded_ℕ, coded_list};
    ghost use Rattle.std.specs.FinMap as map;
    ghost use Rattle.rdf_types.specs.Places.{coded_place};
    ghost use Rattle.rdf_machine.specs.Images.{ByPlace};

    ghost Value = { ByPlace };

    ghost coded = { map.code coded_place (coded_list coded_ℕ) };

    ghost view = { λ a. map.from_entries a.by_place.entries };
}

impl Images {
    /// No image of any place.
    pub fn new(alloc: Global) -> Images
        ensures { result ≡ map.empty }
    {
        Images {
            alloc,
            by_place: BTreeMap::new(alloc),
        }
    }

    /// One image more of a place.
    pub fn push(&mut self, key: RecKey, pos: Pos) -> Result<(), AllocError>
        ensures ok { OnOk result (self.new ≡ map.insert self.old key (positions_in self.old key ++ pos ∷ [])) }
        ensures err { OnErr result (self.new ≡ self.old) }
    {
        if let Some(positions) = self.by_place.get_mut(&key) {
            return positions.push(pos);
        }
        let mut positions = Positions::new(self.alloc);
        positions.push(pos)?;
        self.put(key, positions)
    }

    fn put(&mut self, key: RecKey, positions: Positions) -> Result<(), AllocError>
        ensures ok { OnOk result (self.new ≡ map.insert self.old key positions) }
        ensures err { OnErr result (self.new ≡ self.old) }
    {
        let _ = self.by_place.insert(key, positions)?;
        Ok(())
    }

    /// The last position below this one of an image of the place.
    pub fn last_below(&self, key: &RecKey, upto: Pos) -> Option<Pos>
        ensures { IsNonDecreasing (positions_in self.now key.now) → result ≡ last_in (filter (λ p. nat_lt p upto) (positions_in self.now key.now)) }
    {
        match self.by_place.get(key) {
            None => None,
            Some(positions) => positions.last_below(upto),
        }
    }
}
