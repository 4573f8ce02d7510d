//! Lines whose texts still stand in the plan that they are read from.
ghost use Rattle.std.specs.Prelude.{◌<◌};

use crate::lines::Line;
use rdf_types::records::{Node, TxnId};

/// The place of a row.
#[derive(Drop)]
pub struct PlaceAt<'a> {
    pub vol: u8,
    pub file: &'a [u8],
    pub key: &'a [u8],
    ghost few: { vol < 16 },
}

/// A line. Those without texts are there already.
#[derive(Drop)]
pub enum LineAt<'a> {
    Insert {
        txn: TxnId,
        place: PlaceAt<'a>,
        value: &'a [u8],
    },
    Update {
        txn: TxnId,
        place: PlaceAt<'a>,
        value: &'a [u8],
    },
    Delete {
        txn: TxnId,
        place: PlaceAt<'a>,
    },
    Get {
        txn: TxnId,
        place: PlaceAt<'a>,
    },
    Read {
        node: Node,
        place: PlaceAt<'a>,
    },
    Plain {
        line: Line,
    },
}
