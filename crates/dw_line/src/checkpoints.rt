//! The checkpoints of the used sequences of a line program: rows from which later ones are run
//! again.

ghost use Rattle.std.specs.Prelude.{◌≡◌, OnOk};
ghost use Rattle.dw_line.specs.Recorder.{recorder_shown, empty, none_pending, row_pending, used_from};
ghost use Rattle.dw_line.specs.Recorder.{closed, pushed, recorded, finished};

use crate::machine::Appended;
use crate::registers::Registers;
use std::alloc::{AllocError, Global};

/// How many rows lie from one checkpoint of a sequence to the next.
pub(crate) const ROWS_APART: usize = 64;

/// A row from which later ones are run again: its registers, and how many bytes of the program the
/// machine has passed after it.
#[derive(Clone, Copy, Debug, Default, PartialEq, Eq)]
pub(crate) struct Checkpoint {
    pub(crate) registers: Registers,
    pub(crate) place: usize,
}

/// A used sequence: its first address and its end, and where its checkpoints lie among all of them.
#[derive(Clone, Copy, Debug, Default)]
pub(crate) struct Sequence {
    pub(crate) begin: u64,
    pub(crate) end: u64,
    pub(crate) first_checkpoint: usize,
    pub(crate) end_checkpoint: usize,
}

/// What is known of the rows since the last end row.
#[derive(Clone, Copy, Debug)]
pub(crate) struct Pending {
    /// Where their checkpoints begin.
    pub(crate) first_checkpoint: usize,
    /// The address of the last one, 0 before the first.
    pub(crate) last_address: u64,
    /// Their addresses never fall.
    pub(crate) rises: bool,
    /// How many rows more come before the next checkpoint.
    pub(crate) room: usize,
}

/// The checkpoints and the used sequences of a program that is run, so far.
#[derive(Drop)]
pub(crate) struct Checkpoints {
    pub(crate) checkpoints: Vec<Checkpoint>,
    pub(crate) sequences: Vec<Sequence>,
    pub(crate) pending: Pending,
}

impl Pending {
    /// No row is pending, after the first `first_checkpoint` checkpoints.
    fn none(first_checkpoint: usize) -> Self
        ensures { result ≡ none_pending first_checkpoint }
    {
        Pending {
            first_checkpoint,
            last_address: 0,
            rises: true,
            room: 0,
        }
    }

    /// One more row is pending.
    #[inline(always)]
    fn with_row(self, address: u64) -> Self
        ensures { result ≡ row_pending address self }
    {
        let room = if self.room == 0 {
            ROWS_APART - 1
        } else {
            self.room - 1
        };
        Pending {
            first_checkpoint: self.first_checkpoint,
            last_address: address,
            rises: self.rises && self.last_address <= address,
            room,
        }
    }
}

impl Checkpoints {
    /// Nothing is recorded yet.
    pub(crate) fn new(alloc: Global) -> Self
        ensures { recorder_shown result ≡ empty }
    {
        Checkpoints {
            checkpoints: Vec::new(alloc),
            sequences: Vec::new(alloc),
            pending: Pending::none(0),
        }
    }

    /// One more row is pending, after which the first `place` bytes of the program are passed.
    #[inline(always)]
    fn push(&mut self, registers: Registers, place: usize) -> Result<(), AllocError>
        ensures { OnOk result (recorder_shown self.new ≡ pushed registers place (recorder_shown self.old)) }
    {
        if self.pending.room == 0 {
            self.checkpoints.push(Checkpoint { registers, place })?;
        }
        self.pending = self.pending.with_row(registers.address);
        Ok(())
    }

    /// The address at which the pending rows begin, where they are a used sequence with an end row
    /// at an address.
    fn used_from(&self, end: u64) -> Option<u64>
        ensures { result ≡ used_from end (recorder_shown self.now) }
    {
        let first = self.checkpoints.get(self.pending.first_checkpoint)?;
        let begin = first.registers.address;
        if self.pending.rises && self.pending.last_address <= end && begin < end {
            Some(begin)
        } else {
            None
        }
    }

    /// The pending rows end: they are a sequence, which is kept where it is used.
    fn close(&mut self, end: u64) -> Result<(), AllocError>
        ensures { OnOk result (recorder_shown self.new ≡ closed end (recorder_shown self.old)) }
    {
        let first_checkpoint = self.pending.first_checkpoint;
        let Some(begin) = self.used_from(end) else {
            self.checkpoints.truncate(first_checkpoint);
            self.pending = Pending::none(first_checkpoint);
            return Ok(());
        };
        let end_checkpoint = self.checkpoints.len();
        self.sequences.push(Sequence {
            begin,
            end,
            first_checkpoint,
            end_checkpoint,
        })?;
        self.pending = Pending::none(end_checkpoint);
        Ok(())
    }

    /// The machine has appended a row, after which the first `place` bytes of the program are
    /// passed.
    #[inline(always)]
    pub(crate) fn record(&mut self, appended: Appended, place: usize) -> Result<(), AllocError>
        ensures { OnOk result (recorder_shown self.new ≡ recorded appended place (recorder_shown self.old)) }
    {
        if appended.ends {
            self.close(appended.registers.address)
        } else {
            self.push(appended.registers, place)
        }
    }

    /// The program ends: rows that no end row follows are in no sequence.
    pub(crate) fn finish(&mut self)
        ensures { recorder_shown self.new ≡ finished (recorder_shown self.old) }
    {
        self.checkpoints.truncate(self.pending.first_checkpoint);
    }
}
