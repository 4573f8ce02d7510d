//! Lines of words with a space between them.
ghost use Rattle.std.specs.Prelude.{◌≡◌, [], ◌∷◌, ◌++◌, decimal, OnOk};
ghost use Rattle.rdf_monitor.specs.Words.{with_words};

use std::alloc::AllocError;

/// Adds a word behind a space.
pub fn push_word(line: &mut Vec<u8>, word: &[u8]) -> Result<(), AllocError>
    ensures { OnOk result (line.new.items ≡ line.old.items ++ 32 ∷ word.now) }
{
    line.push(b' ')?;
    line.extend_from_slice(word)
}

/// Adds a number behind a space.
pub fn push_number(line: &mut Vec<u8>, n: u64) -> Result<(), AllocError>
    ensures { OnOk result (line.new.items ≡ line.old.items ++ 32 ∷ decimal n) }
{
    let digits = n.to_string(*line.allocator())?;
    push_word(line, digits.as_bytes())
}

/// Adds a word and a number, each behind a space.
pub fn push_named(line: &mut Vec<u8>, word: &[u8], n: u64) -> Result<(), AllocError>
    ensures { OnOk result (line.new.items ≡ with_words line.old.items (word.now ∷ decimal n ∷ [])) }
{
    push_word(line, word)?;
    push_number(line, n)
}

/// Ends a line.
pub fn end_line(line: &mut Vec<u8>) -> Result<(), AllocError>
    ensures { OnOk result (line.new.items ≡ line.old.items ++ 10 ∷ []) }
{
    line.push(b'\n')?;
    Ok(())
}
