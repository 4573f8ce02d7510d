//! What an overlay says of a place.
use rdf_types::names::Value;

/// What an overlay says of a place.
#[derive(Clone, Copy)]
pub enum Laying<'a> {
    /// This value was set there.
    Set(&'a Value),
    /// The place was emptied.
    Emptied,
    /// The rows below say what stands there.
    Untouched,
}
