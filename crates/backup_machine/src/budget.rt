//! How many durable parts of a line are to be done: all of them, or some first ones.
ghost use Rattle.std.specs.Prelude.{◌≡◌};
ghost use Rattle.backup_machine.specs.Budgets.{is_spent, without};

/// All parts, or so many first ones.
pub type Budget = Option<u32>;

/// Whether no part more is to be done.
pub fn is_spent(most: Budget) -> bool
    ensures { result ≡ is_spent most }
{
    matches!(most, Some(0))
}

/// What is left after one part.
pub fn one_less(most: Budget) -> Budget
    ensures { result ≡ without most 1 }
{
    match most {
        None => None,
        Some(count) => Some(count.saturating_sub(1)),
    }
}
