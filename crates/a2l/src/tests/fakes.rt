//! Files and streams in memory.

ghost use Rattle.std.specs.Prelude.{Some, None, option_copied};

use crate::load::Load;
use a2l_lines::{Failed, LoadFault, Sink, Source};
use dw_bytes::Steps;
use std::alloc::{AllocError, Global};
use std::sync::ledger::Ledger;

/// One file, at every path; `None` is a device that fails.
#[derive(Drop)]
pub struct OneFile<'a>(pub Option<&'a [u8]>, pub Global);

impl Load for OneFile<'_> {
    ghost known = { λ s _. Some (option_copied s.0) };

    fn load(&mut self, _path: &str) -> Result<Vec<u8>, LoadFault> {
        let Some(bytes) = self.0 else {
            return Err(LoadFault::Device);
        };
        match Vec::from_slice(self.1, bytes) {
            Ok(bytes) => Ok(bytes),
            Err(AllocError) => Err(LoadFault::Memory),
        }
    }

    fn free_processors(&self) -> Option<usize> {
        None
    }
}

/// An input that gives at most `most` bytes a call, and fails at the call that `fails_at` counts,
/// from 0.
#[derive(Drop)]
pub struct Lines<'a, L: Ledger> {
    pub left: &'a [u8],
    pub most: usize,
    pub fails_at: u64,
    pub calls: u64,
    pub failures: Steps<L>,
}

impl<L: Ledger> Source for Lines<'_, L> {
    ghost failures = { λ s. s.failures };

    ghost left = { λ _. None };

    fn read(&mut self, buffer: &mut [u8]) -> Result<usize, Failed> {
        let call = self.calls;
        self.calls = call.saturating_add(1);
        if call == self.fails_at {
            self.failures.tick();
            return Err(Failed);
        }
        let count = self.left.len().min(buffer.len()).min(self.most);
        let (piece, rest) = self.left.split_at(count);
        buffer.split_at_mut(count).0.copy_from_slice(piece);
        self.left = rest;
        Ok(count)
    }
}

/// Keeps what is written: at most `most` bytes a call, and nothing from the call on that `fails_at`
/// counts, from 0.
#[derive(Drop)]
pub struct Kept<L: Ledger> {
    pub bytes: Vec<u8>,
    pub most: usize,
    pub fails_at: u64,
    pub calls: u64,
    pub failures: Steps<L>,
}

impl<L: Ledger> Sink for Kept<L> {
    ghost failures = { λ s. s.failures };

    ghost told = { λ s. Some s.bytes.items };

    fn write(&mut self, piece: &[u8]) -> Result<usize, Failed> {
        let call = self.calls;
        self.calls = call.saturating_add(1);
        let count = piece.len().min(self.most);
        if call >= self.fails_at
            || self
                .bytes
                .extend_from_slice(piece.split_at(count).0)
                .is_err()
        {
            self.failures.tick();
            return Err(Failed);
        }
        if count == 0 && !piece.is_empty() {
            self.failures.tick();
        }
        Ok(count)
    }
}
