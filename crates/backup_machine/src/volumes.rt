//! How far the volumes of a backup are.
use crate::positions::Positions;
use rdf_types::records::Pos;

/// In Running each volume has its restart point; in Taking nothing is said of them; in Taken all have what was committed
/// before a position.
#[derive(Drop)]
pub enum VolumesState {
    /// Each volume shows the records before its restart point.
    Running { points: Positions },
    /// A takeover has begun.
    Taking,
    /// A takeover has ended.
    Taken { upto: Pos },
}
