//! The places that one transaction has locked.
ghost use Rattle.std.specs.Prelude.{◌≡◌, ◌++◌, [], ◌∷◌, IfOk, OnOk, OnErr};

use rdf_types::records::RecKey;
use std::alloc::{AllocError, Global};
use std::marker::Model;

/// The places that one transaction has locked, in the order in which it locked them.
#[derive(Drop)]
pub struct Places {
    keys: Vec<RecKey>,
}

impl Model for Places {
    ghost use Rattle.std.specs.Prelude.{List};
    ghost use Rattle.std.specs.Coded.{coded_list};
    ghost use Rattle.rdf_types.specs.Places.{coded_place};
    ghost use Rattle.rdf_types.specs.declared.records.RecKey.{RecKey};

    ghost Value = { List RecKey };

    ghost coded = { coded_list coded_place };

    ghost view = { λ a. a.keys.items };
}

impl Places {
    /// A first place.
    pub fn one(alloc: Global, key: RecKey) -> Result<Places, AllocError>
        ensures { IfOk result (λ places. places ≡ key ∷ []) }
    {
        let mut keys = Vec::new(alloc);
        keys.push(key)?;
        Ok(Places { keys })
    }

    /// One place more. Want of memory leaves all as it was.
    pub fn add(&mut self, key: RecKey) -> Result<(), AllocError>
        ensures ok { OnOk result (self.new ≡ self.old ++ key ∷ []) }
        ensures err { OnErr result (self.new ≡ self.old) }
    {
        self.keys.push(key)?;
        Ok(())
    }

    /// The places, the first locked first.
    pub fn keys(&self) -> &[RecKey]
        ensures { result.now ≡ self.now }
    {
        &self.keys
    }
}
