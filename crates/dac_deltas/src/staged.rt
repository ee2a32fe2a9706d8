//! A push in two steps: all that can fail, and then the rest.
ghost use Rattle.std.specs.Prelude.{◌≡◌, ◌<◌, MatchResult};
ghost use Rattle.dac_base.specs.declared.limits.TheConstants.{MAX_COUNTER};
ghost use Rattle.dac_deltas.specs.KeptDeltas.{pushed};

use crate::blocks::{BlockEnd, make_place};
use crate::buffer::{Buffer, keep_newest};
use dac_lattice::Bottom;
use std::alloc::Global;
use std::collections::VecDeque;
use std::marker::Model;

/// A buffer with a delta about to be pushed: all allocations are made. [`Staged::commit`] pushes the delta, and
/// [`Staged::cancel`] gives the buffer back without it; neither can fail. Contracts see the buffer and the delta.
#[derive(Drop)]
pub struct Staged<L: Bottom> {
    alloc: Global,
    count: u64,
    /// The stored deltas, with room for one more.
    kept: VecDeque<BlockEnd<L>>,
    ready: Option<(u64, L)>,
    delta: L,
}

impl<L: Bottom> Model for Staged<L> {
    ghost use Rattle.std.specs.Prelude.{◌<◌};
    ghost use Rattle.std.specs.VecDeque.{deque_len, deque_capacity};
    ghost use Rattle.dac_deltas.specs.KeptDeltas.{KeptDeltas, newest};
    ghost use Rattle.dac_deltas.specs.BlockEnds.{IsStaged, deltas_of};

    ghost Value = { KeptDeltas L × L };

    ghost view = { λ s. (newest s.count (deltas_of s.kept.items), s.delta) };

    ghost invariant = { λ s. IsStaged L.is_value L.join L.bottom s.count s.kept.items s.ready s.delta
        × (deque_len s.kept < deque_capacity s.kept) };
}

impl<L: Bottom> Buffer<L> {
    /// Prepares to append a delta as [`Buffer::push`] does, but makes no joins of blocks. Requires a count below 2^62.
    /// For want of memory it hands the buffer back unchanged.
    pub fn stage(mut self, delta: L) -> Result<Staged<L>, Self>
        requires { self.count < MAX_COUNTER }
        ensures { MatchResult result (λ staged. staged ≡ (self, delta)) (λ back. back ≡ self) }
    {
        delta.tells_invariant();
        if make_place(&mut self.kept).is_err() {
            return Err(self);
        }
        let Buffer {
            alloc,
            count,
            kept,
            ready,
        } = self;
        Ok(Staged {
            alloc,
            count,
            kept,
            ready,
            delta,
        })
    }
}

impl<L: Bottom> Staged<L> {
    /// The buffer with the delta.
    pub fn commit(self) -> Buffer<L>
        ensures { result ≡ pushed self.0 self.1 }
    {
        let Staged {
            alloc,
            count,
            mut kept,
            ready: _ready,
            delta,
        } = self;
        kept.push_back_reserved(BlockEnd::new(alloc, delta));
        keep_newest(&mut kept);
        Buffer {
            alloc,
            count: count + 1,
            kept,
            ready: None,
        }
    }

    /// The buffer without the delta.
    pub fn cancel(self) -> Buffer<L>
        ensures { result ≡ self.0 }
    {
        let Staged {
            alloc,
            count,
            kept,
            ready,
            delta,
        } = self;
        drop(delta);
        Buffer {
            alloc,
            count,
            kept,
            ready,
        }
    }

    /// The delta.
    pub fn delta(&self) -> &L
        ensures { result.now ≡ self.now.1 }
    {
        &self.delta
    }
}
