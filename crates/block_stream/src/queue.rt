ghost use Rattle.std.specs.Prelude.{◌≡◌, ℕ, List, [], ◌∷◌, ◌++◌, drop, length, IfOk, OnOk, OnErr};
ghost use Rattle.block_stream.specs.inner.Kept.{first_of, is_whole};
ghost use Rattle.block_stream.specs.Stream.{has_some};

use s3_types::Bytes;
use std::alloc::{AllocError, Global};
use std::collections::VecDeque;
use std::marker::Model;

/// Blocks that wait to be sent, in order.
#[derive(Drop)]
pub struct Queue {
    blocks: VecDeque<Bytes>,
}

impl Model for Queue {
    ghost use Rattle.std.specs.Prelude.{ℕ, List};
    ghost use Rattle.std.specs.Coded.{coded_list};
    ghost use Rattle.s3_types.specs.Coded.{coded_text};

    ghost Value = { List (List ℕ) };

    ghost coded = { coded_list coded_text };

    ghost view = { λ q. q.blocks.items };
}

impl Queue {
    /// No blocks. Takes no memory.
    pub fn new(alloc: Global) -> Queue
        ensures { result ≡ [] }
    {
        Queue {
            blocks: VecDeque::new(alloc),
        }
    }

    /// The first block, which is shared, or no bytes if none waits.
    pub fn first(&self, alloc: Global) -> Result<Bytes, AllocError>
        ensures { IfOk result (λ bytes. bytes ≡ first_of self.now) }
    {
        match self.blocks.front() {
            Some(block) => block.clone(),
            None => Bytes::empty(alloc),
        }
    }

    /// True if the first block has at least `block` bytes. Takes no memory.
    pub fn is_whole(&self, block: u64) -> bool
        ensures { result ≡ is_whole block self.now }
    {
        match self.blocks.front() {
            Some(first) => first.as_slice().len() as u64 >= block,
            None => false,
        }
    }

    /// True if a block waits. Takes no memory.
    pub fn has_some(&self) -> bool
        ensures { result ≡ has_some self.now }
    {
        !self.blocks.is_empty()
    }

    /// Adds blocks at the end. After an error the blocks are as before.
    pub fn append(&mut self, blocks: &mut Queue) -> Result<(), AllocError>
        ensures ok { OnOk result (self.new ≡ self.old ++ blocks.old) }
        ensures err { OnErr result (self.new ≡ self.old) }
    {
        self.blocks.append(&mut blocks.blocks)
    }

    /// Adds a block at the end. After an error the blocks are as before.
    pub fn push(&mut self, block: Bytes) -> Result<(), AllocError>
        ensures ok { OnOk result (self.new ≡ self.old ++ block ∷ []) }
        ensures err { OnErr result (self.new ≡ self.old) }
    {
        self.blocks.push_back(block)?;
        Ok(())
    }

    /// Drops the first block, if there is one. Takes no memory.
    pub fn drop_first(&mut self)
        ensures { self.new ≡ drop 1 self.old }
    {
        self.blocks.pop_front();
    }
}
