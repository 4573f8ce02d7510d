//! The blocks of a base that were read last.
ghost use Rattle.std.specs.Prelude.{◌≡◌, [], ◌∷◌, true, take, slice_get, option_copied, IfOk, IfSome, MatchOption};

use circular_buffer::HeapCircularBuffer;
use rdf_types::records::Row;
use std::alloc::{AllocError, Global};
use std::marker::Model;

/// How many blocks are kept.
const MOST: usize = 16;

/// The rows of one block of a base.
#[derive(Drop)]
pub struct BlockRead {
    pub number: u32,
    pub rows: Vec<Row>,
}

/// The blocks of a base that were read last, the newest first. Contracts see them as a list.
#[derive(Drop)]
pub struct BlockCache {
    blocks: HeapCircularBuffer<BlockRead>,
}

impl Model for BlockCache {
    ghost use Rattle.std.specs.Prelude.{◌≡◌, List};
    ghost use Rattle.rdf_volume.specs.declared.block_cache.BlockRead.{BlockRead};

    ghost Value = { List BlockRead };

    ghost view = { λ cache. cache.blocks.items };

    ghost invariant = { λ cache. cache.blocks.capacity ≡ 16 };
}

impl BlockCache {
    /// No block yet.
    pub fn new(alloc: Global) -> Result<BlockCache, AllocError>
        ensures { IfOk result (λ cache. cache ≡ []) }
    {
        let blocks = HeapCircularBuffer::with_capacity(alloc, MOST)?;
        Ok(BlockCache { blocks })
    }

    /// Where the block of that number is, if it is kept.
    pub fn place_of(&self, number: u32) -> Option<usize>
        ensures { IfSome result (λ place. MatchOption (slice_get self.now place) ⊥ (λ block. block.number ≡ number)) }
    {
        for place in 0..self.blocks.len() {
            if self.has_at(place, number) {
                return Some(place);
            }
        }
        None
    }

    /// Whether the block at the place has that number.
    fn has_at(&self, place: usize, number: u32) -> bool
        ensures { result ≡ true → MatchOption (slice_get self.now place) ⊥ (λ block. block.number ≡ number) }
    {
        match self.blocks.get(place) {
            Some(block) => block.number == number,
            None => false,
        }
    }

    /// The block at the place.
    pub fn get(&self, place: usize) -> Option<&BlockRead>
        ensures { option_copied result ≡ slice_get self.now place }
    {
        self.blocks.get(place)
    }

    /// Keeps one block more. Where there is no room for it, the one that was read first is forgotten.
    pub fn keep(&mut self, block: BlockRead)
        ensures { self.new ≡ take 16 (block ∷ self.old) }
    {
        let _forgotten = self.blocks.push_front(block);
    }

    /// Forgets all blocks.
    pub fn clear(&mut self)
        ensures { self.new ≡ [] }
    {
        self.blocks.clear();
    }
}
