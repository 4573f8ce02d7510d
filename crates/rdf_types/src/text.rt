//! Byte texts of a class, each within its limit, ordered by their bytes.
ghost use Rattle.std.specs.Prelude.{◌≡◌, ◌<◌, IfOk, OnOk, IfErr, IfSome, IfNone, None, Some, not, position, length, nat_eq};
ghost use Rattle.std.specs.Cmp.{partial_equiv_from_equiv};
ghost use Rattle.std.specs.Cmp.Lexicographic.{pointwise, slice_cmp, nat_list_eq_equiv, nat_list_cmp_total, texts_ties, texts_po};
ghost use Rattle.std.specs.List.{AllPass};
ghost use Rattle.std.specs.Ordering.{nat_cmp};
ghost use Rattle.std.proofs.Common.{refl};

use crate::names::NameFault;
use std::alloc::{AllocError, Global};
use std::cmp::Ordering;
use std::marker::Model;
use std::sync::ArcSlice;

/// Which bytes a text may have.
#[derive(Clone, Copy)]
pub enum Class {
    /// `a` to `z` and `0` to `9`.
    Name,
    /// 33 to 126.
    Printable,
}

impl Class {
    ghost use Rattle.rdf_types.specs.Classes.{class_of};

    fn has(self, byte: u8) -> bool
        ensures { result ≡ class_of self byte }
    {
        match self {
            Class::Name => (byte >= 97 && byte <= 122) || (byte >= 48 && byte <= 57),
            Class::Printable => byte >= 33 && byte <= 126,
        }
    }

    // The first byte that is not of the class.
    fn first_other(self, bytes: &[u8]) -> Option<usize>
        ensures value { result ≡ position (λ b. not (class_of self b)) bytes.now }
        ensures within { IfSome result (λ at. at < length bytes.now) }
        ensures none { IfNone result (AllPass (class_of self) bytes.now) }
    {
        bytes.iter().position(|&b| !self.has(b))
    }
}

/// The bytes of a text. Its copies share them, so that a copy takes no memory of its own.
#[derive(Debug, Drop)]
pub struct Text {
    bytes: ArcSlice<u8>,
}

impl Model for Text {
    ghost use Rattle.std.specs.Prelude.{List, ℕ};

    ghost Value = { List ℕ };

    ghost view = { λ a. a.bytes.items.value.items };
}

impl Text {
    ghost use Rattle.rdf_types.specs.Classes.{class_of};
    ghost use Rattle.rdf_types.specs.Limits.{IsText};
    ghost use Rattle.rdf_types.specs.Names.{text_fault, IsFaultOf};

    /// Reads bytes of a class, at most `limit` of them. An error names their first fault.
    pub fn read(alloc: Global, class: Class, limit: u32, bytes: &[u8]) -> Result<Text, NameFault>
        ensures value { IfOk result (λ text. text ≡ bytes.now) }
        ensures limits { OnOk result (IsText (class_of class) limit bytes.now) }
        ensures ok { OnOk result (text_fault (class_of class) limit bytes.now ≡ None) }
        ensures fault { IfErr result (IsFaultOf (text_fault (class_of class) limit bytes.now)) }
    {
        if bytes.is_empty() {
            return Err(NameFault::Empty);
        }
        if bytes.len() > limit as usize {
            return Err(NameFault::TooLong { limit });
        }
        if let Some(at) = class.first_other(bytes) {
            return Err(NameFault::BadByte { at: at as u32 });
        }
        match ArcSlice::from_slice(alloc, bytes) {
            Ok(bytes) => Ok(Text { bytes }),
            Err(_) => Err(NameFault::NoMemory),
        }
    }

    /// The bytes in order.
    pub fn bytes(&self) -> &[u8]
        ensures { result.now ≡ self.now }
    {
        self.bytes.as_slice()
    }

    /// An equal text, which shares the bytes.
    pub fn try_clone(&self) -> Result<Text, AllocError>
        ensures { IfOk result (λ text. text ≡ self.now) }
    {
        let bytes = self.bytes.clone()?;
        Ok(Text { bytes })
    }
}

impl PartialEq for Text {
    ghost eq = { pointwise nat_eq };

    ghost laws = { partial_equiv_from_equiv nat_list_eq_equiv };

    fn eq(&self, other: &Text) -> bool {
        self.bytes() == other.bytes()
    }
}

impl Eq for Text {
    ghost laws = { nat_list_eq_equiv };
}

impl PartialOrd for Text {
    ghost partial_cmp = { λ x y. Some (slice_cmp nat_cmp x y) };

    ghost laws = { texts_po };

    fn partial_cmp(&self, other: &Text) -> Option<Ordering> {
        Some(self.cmp(other))
    }
}

impl Ord for Text {
    ghost cmp = { slice_cmp nat_cmp };

    ghost total = { nat_list_cmp_total };

    ghost matches_partial_cmp = { λ x y. refl };

    ghost matches_eq = { texts_ties };

    fn cmp(&self, other: &Text) -> Ordering {
        self.bytes().cmp(other.bytes())
    }
}
