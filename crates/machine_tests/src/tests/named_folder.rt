//! The folder that the words name.
use command_words::{Words, read_words};
use std::alloc::{AllocError, Global};
use std::test::Fail;

// The words of a text, which spaces keep apart.
fn words_of(alloc: Global, text: &str) -> Result<Vec<String>, AllocError> {
    let mut words = Vec::new(alloc);
    for word in text.split_whitespace() {
        words.push(String::from_str(alloc, word)?)?;
    }
    Ok(words)
}

#[test]
fn folder_is_the_third_word(rt: HostRuntime) -> Result<(), Fail> {
    let alloc = rt.alloc();
    let words = words_of(alloc, "run --dir disks/d-1")?;
    let named = match read_words(alloc, &words) {
        Ok(Words::RunDir { dir }) => dir.as_str() == "disks/d-1",
        _ => false,
    };
    assert!(rt; named);
    Ok(())
}
