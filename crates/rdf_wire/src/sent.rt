//! The messages to one node.
ghost use Rattle.std.specs.Prelude.{◌≡◌, ◌++◌, [], ◌∷◌, length, IfOk, OnOk, OnErr, option_copied, slice_get};

use rdf_codec::entries::Entries;
use std::alloc::{AllocError, Global};
use std::marker::Model;

/// The messages that were sent to one node, by number from 0 on: fewer than 4,294,967,296 of them.
#[derive(Drop)]
pub struct Sent {
    messages: Vec<Entries<u8>>,
}

impl Model for Sent {
    ghost use Rattle.std.specs.Prelude.{List, ℕ, ◌<◌, ◌^◌, length};

    ghost Value = { List (List ℕ) };

    ghost view = { λ a. a.messages.items };

    ghost invariant = { λ a. length a.messages.items < 2 ^ 32 };
}

impl Sent {
    /// No message was sent.
    pub fn new(alloc: Global) -> Sent
        ensures { result ≡ [] }
    {
        Sent {
            messages: Vec::new(alloc),
        }
    }

    /// One message more. Want of memory is answered too where the count would pass the end of its type.
    pub fn push(&mut self, bytes: Vec<u8>) -> Result<u32, AllocError>
        ensures number { IfOk result (λ k. k ≡ length self.old) }
        ensures ok { OnOk result (self.new ≡ self.old ++ bytes.items ∷ []) }
        ensures err { OnErr result (self.new ≡ self.old) }
    {
        let number = self.count();
        if number == u32::MAX {
            return Err(AllocError);
        }
        self.messages.push(Entries::new(bytes))?;
        Ok(number)
    }

    /// The bytes of the message with this number, where it was sent.
    pub fn get(&self, k: u32) -> Option<&[u8]>
        ensures { option_copied result ≡ slice_get self.now k }
    {
        let message = self.messages.get(k as usize)?;
        Some(message.as_slice())
    }

    /// How many messages were sent, which is the number of the next one.
    pub fn count(&self) -> u32
        ensures { result ≡ length self.now }
    {
        self.messages.len() as u32
    }
}
