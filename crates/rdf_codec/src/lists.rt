//! Lists of entries, as they are read.
ghost use Rattle.std.specs.Prelude.{◌≡◌, ◌∷◌, [], ◌++◌, IfOk, IsOkAnd};

use std::alloc::AllocError;

/// One entry more, where there was memory for it and for those before it.
pub fn with_entry<T: Drop>(
    entries: Result<Vec<T>, AllocError>,
    entry: Result<T, AllocError>,
) -> Result<Vec<T>, AllocError>
    ensures { IfOk result (λ new. IsOkAnd entries (λ old. IsOkAnd entry (λ x. new.items ≡ old.items ++ x ∷ []))) }
{
    let mut entries = entries?;
    entries.push(entry?)?;
    Ok(entries)
}
