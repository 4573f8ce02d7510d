//! Lists of the numbers of files.
ghost use Rattle.std.specs.Prelude.{◌≡◌, ◌≢◌, ◌<◌, ◌==◌, ℕ, not, filter, true, false, nat_eq, vec_len, vec_capacity};
ghost use Rattle.std.specs.List.{list_any};
ghost use Rattle.folder_disk.specs.Tracked.{AreIn};

/// Whether a number is among those.
pub fn is_among(numbers: &[u32], number: u32) -> bool
    ensures { result ≡ list_any (nat_eq number) numbers.now }
{
    numbers.contains(&number)
}

/// Adds a number for which there is room, unless it is there.
pub fn add_number(numbers: &mut Vec<u32>, number: u32)
    requires { vec_len numbers.old < vec_capacity numbers.old }
    ensures there { list_any (nat_eq number) numbers.new.items ≡ true }
    ensures kept { AreIn numbers.old.items numbers.new.items }
{
    if is_among(numbers, number) {
        return;
    }
    numbers.push_reserved(number);
}

/// Takes a number out, wherever it stands.
pub fn drop_number(numbers: &mut Vec<u32>, number: u32)
    ensures gone { list_any (nat_eq number) numbers.new.items ≡ false }
    ensures others { (m : ℕ) → m ≢ number → list_any (nat_eq m) numbers.new.items ≡ list_any (nat_eq m) numbers.old.items }
{
    without(numbers, number);
}

fn without(numbers: &mut Vec<u32>, number: u32)
    ensures { numbers.new.items ≡ filter (λ m. not (m == number)) numbers.old.items }
{
    numbers.retain(|m| *m != number);
}
