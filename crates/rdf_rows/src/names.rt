//! Words of a row as what they name.
use crate::row::Place;
use hex::FromHexError;
use memory_folder::Loss;
use rdf_disk::Tear;
use rdf_types::records::Node;
use std::alloc::{AllocError, Global};

/// The node of a letter.
pub fn node_of(word: &str) -> Option<Node> {
    match word {
        "a" => Some(Node::A),
        "b" => Some(Node::B),
        "c" => Some(Node::C),
        _ => None,
    }
}

/// A node's letter.
pub fn letter_of(node: Node) -> &'static str {
    match node {
        Node::A => "a",
        Node::B => "b",
        Node::C => "c",
    }
}

/// The tear of a word.
pub fn tear_of(word: &str) -> Option<Tear> {
    match word {
        "lose" => Some(Tear::Lose),
        "keep" => Some(Tear::Keep),
        "mix" => Some(Tear::Mix),
        _ => None,
    }
}

/// The loss of power of a word.
pub fn loss_of(word: &str) -> Option<Loss> {
    match word {
        "lose" => Some(Loss::Lose),
        "keep" => Some(Loss::Keep),
        "mix" => Some(Loss::Mix { newest: false }),
        _ => None,
    }
}

/// A tear's word.
pub fn word_of(tear: Tear) -> &'static str {
    match tear {
        Tear::Lose => "lose",
        Tear::Keep => "keep",
        Tear::Mix => "mix",
    }
}

/// The disk of a word, which is a node's letter and a number from 0 to 16, as `b0`.
pub fn place_of(word: &str) -> Option<Place> {
    let (node, number) = if let Some(number) = word.strip_prefix('a') {
        (Node::A, number)
    } else if let Some(number) = word.strip_prefix('b') {
        (Node::B, number)
    } else {
        (Node::C, word.strip_prefix('c')?)
    };
    match number.parse::<u8>() {
        Ok(disk) if disk < 17 => Some(Place { node, disk }),
        _ => None,
    }
}

/// Numbers between spaces, or None where a word is none.
pub fn numbers_of(alloc: Global, words: &str) -> Result<Option<Vec<u64>>, AllocError> {
    let mut numbers = Vec::new(alloc);
    for word in words.split(' ') {
        match word.parse::<u64>() {
            Ok(number) => numbers.push(number)?,
            Err(_) => return Ok(None),
        }
    }
    Ok(Some(numbers))
}

/// Bytes, each in two hexadecimal digits, with spaces between any of them. None where a word is none of bytes.
pub fn bytes_of(alloc: Global, words: &str) -> Result<Option<Vec<u8>>, AllocError> {
    let mut bytes = Vec::new(alloc);
    for word in words.split(' ') {
        match hex::decode(alloc, word) {
            Ok(more) => bytes.extend_from_slice(&more)?,
            Err(FromHexError::OutOfMemory) => return Err(AllocError),
            Err(_) => return Ok(None),
        }
    }
    Ok(Some(bytes))
}
