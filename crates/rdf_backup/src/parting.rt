//! Lists into which the volumes of a backup are taken apart.
ghost use Rattle.std.specs.Prelude.{◌≡◌, ◌<◌, ◌≤◌, [], ◌∷◌, vec_len, vec_capacity, IfOk};

use std::alloc::{AllocError, Global};

/// Takes the first of a list, which has one. A list of volumes has at most sixteen, so the others move up at little cost.
pub(crate) fn take_first<T>(list: &mut Vec<T>) -> T
    requires some { 0 < vec_len list.old }
    ensures first { list.old.items ≡ result ∷ list.new.items }
    ensures room { vec_capacity list.new ≡ vec_capacity list.old }
{
    list.remove(0)
}

/// Room for so many of those that take part, and for as many that are set apart.
pub(crate) fn room<W: Drop, X: Drop>(
    alloc: Global,
    many: usize,
) -> Result<(Vec<W>, Vec<X>), AllocError>
    ensures empty { IfOk result (λ lists. (lists.0.items ≡ []) × (lists.1.items ≡ [])) }
    ensures room { IfOk result (λ lists. (many ≤ vec_capacity lists.0) × (many ≤ vec_capacity lists.1)) }
{
    Ok((
        Vec::with_capacity(alloc, many)?,
        Vec::with_capacity(alloc, many)?,
    ))
}
