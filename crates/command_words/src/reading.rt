//! Reading the program's words.
ghost use Rattle.std.specs.Prelude.{◌≡◌, map, string_bytes, IfOk};
ghost use Rattle.plan_lang.specs.Numbers.{number_in};
ghost use Rattle.command_words.specs.Forms.{Gives, IsWithin, words_in, is_word, is_folder, one_word, folder_in, load_in};

use crate::words::{Words, WordsFault};
use plan_lang::numbers::number_of;
use std::alloc::Global;

/// What the words behind the program's name ask for. `NoMemory` comes only where they ask for something.
pub fn read_words(alloc: Global, words: &[String]) -> Result<Words, WordsFault>
    ensures given { Gives result (words_in (map string_bytes words.now)) }
    ensures within { IfOk result IsWithin }
{
    match words {
        [] => Err(WordsFault::BadWords),
        [word] => read_one(word.as_bytes()),
        [_, _] => Err(WordsFault::BadWords),
        [first, second, third] => {
            if is_word(b"run", first) && is_word(b"--dir", second) {
                read_folder(alloc, third)
            } else if is_word(b"make", first) {
                read_load(second.as_bytes(), third.as_bytes())
            } else {
                Err(WordsFault::BadWords)
            }
        }
        [_, _, _, _, ..] => Err(WordsFault::BadWords),
    }
}

fn is_word(text: &[u8], word: &String) -> bool
    ensures { result ≡ is_word text.now (string_bytes word.now) }
{
    text == word.as_bytes()
}

fn read_one(word: &[u8]) -> Result<Words, WordsFault>
    ensures given { Gives result (one_word word.now) }
    ensures within { IfOk result IsWithin }
{
    if b"run".as_slice() == word {
        Ok(Words::Run)
    } else if b"predict".as_slice() == word {
        Ok(Words::Predict)
    } else {
        Err(WordsFault::BadWords)
    }
}

fn read_folder(alloc: Global, dir: &String) -> Result<Words, WordsFault>
    ensures given { Gives result (folder_in (string_bytes dir.now)) }
    ensures within { IfOk result IsWithin }
{
    if !is_folder(dir.as_bytes()) {
        return Err(WordsFault::BadWords);
    }
    match String::from_str(alloc, dir.as_str()) {
        Ok(dir) => Ok(Words::RunDir { dir }),
        Err(_) => Err(WordsFault::NoMemory),
    }
}

fn is_folder(dir: &[u8]) -> bool
    ensures { result ≡ is_folder dir.now }
{
    match dir {
        [] => false,
        [b'-', ..] => false,
        _ => true,
    }
}

fn read_load(seed: &[u8], txns: &[u8]) -> Result<Words, WordsFault>
    ensures given { Gives result (load_in (number_in seed.now) (number_in txns.now)) }
    ensures within { IfOk result IsWithin }
{
    match number_of(seed) {
        Some(seed) => match number_of(txns) {
            Some(txns) => make_load(seed, txns),
            None => Err(WordsFault::BadWords),
        },
        None => Err(WordsFault::BadWords),
    }
}

// The numbers where they are within their ranges.
fn make_load(seed: u32, txns: u32) -> Result<Words, WordsFault>
    ensures given { Gives result (load_in (Some seed) (Some txns)) }
    ensures within { IfOk result IsWithin }
{
    if seed <= 2_147_483_647 && 1 <= txns && txns <= 2_000 {
        Ok(Words::Make { seed, txns })
    } else {
        Err(WordsFault::BadWords)
    }
}
