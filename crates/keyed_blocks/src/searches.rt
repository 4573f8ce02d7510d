//! Searches in entries of an index, and in the rows of a block.
ghost use Rattle.std.specs.Prelude.{◌≡◌, ◌+◌, ◌≤◌, ℕ, Some, true, false, length, map, option_copied, slice_get};
ghost use Rattle.std.specs.FinMap.Entries.{find};
ghost use Rattle.std.specs.Ordering.{is_lt};
ghost use Rattle.rdf_types.specs.Places.{row_cmp};
ghost use Rattle.rdf_codec.specs.declared.index_entries.IndexEntry.{IndexEntry};
ghost use Rattle.rdf_model.specs.Rows.{row_entry, row_place};
ghost use Rattle.keyed_blocks.specs.Bases.{entry_place, rises};

use rdf_codec::index_entries::IndexEntry;
use rdf_types::names::{FileName, Key, Value};
use rdf_types::records::Row;

/// Whether the file and key stand below the entry's first row.
fn is_below(file: &FileName, key: &Key, entry: &IndexEntry) -> bool
    ensures { result ≡ is_lt (row_cmp (file.now, key.now) (entry_place entry.now)) }
{
    (file, key) < (&entry.file, &entry.key)
}

/// By halves, how many entries come up to one at or below the file and key behind which stands none, or one above them.
pub fn entries_upto(entries: &[IndexEntry], file: &FileName, key: &Key) -> usize
    ensures within { result ≤ length entries.now }
    ensures last { (i : ℕ) (e : IndexEntry) → i + 1 ≡ result → slice_get entries.now i ≡ Some e →
        is_lt (row_cmp (file.now, key.now) (entry_place e)) ≡ false }
    ensures next { (e : IndexEntry) → slice_get entries.now result ≡ Some e → is_lt (row_cmp (file.now, key.now) (entry_place e)) ≡ true }
{
    let mut low = 0;
    let mut high = entries.len();
    while low < high {
        let middle = low + (high - low) / 2;
        if is_below(file, key, &entries[middle]) {
            high = middle;
        } else {
            low = middle + 1;
        }
    }
    low
}

/// The value of the row of that file and key, found by halves among rows that rise.
pub fn value_among<'a>(rows: &'a [Row], file: &FileName, key: &Key) -> Option<&'a Value>
    ensures { rises rows.now ≡ true → option_copied result ≡ find row_cmp (file.now, key.now) (map row_entry rows.now) }
{
    let place = rows.binary_search_by(
        |row|
            ensures { result ≡ row_cmp (row_place row.now) (file.entry.now, key.entry.now) }
        { (&row.file, &row.key).cmp(&(file, key)) },
    );
    match place {
        Ok(at) => Some(&rows[at].value),
        Err(_) => None,
    }
}
