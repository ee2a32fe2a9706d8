//! Copies of operations, and their acts on pieces.
use crate::sample::{Does, ME, dot, operation};
use crate::trial::{Fixture, Said, of_any};
use dac_state::{DotList, Op};
use std::alloc::Global;

/// A call of an operation.
#[derive(Clone, Copy, Debug, PartialEq, Eq)]
pub enum OfOperation {
    Copy,
    CopyAct,
    CopyDots,
    SeeWish,
    SeePermit,
    SeeDrain,
}

/// A stop, and a list of two dots.
#[derive(Drop)]
pub struct OperationFixture {
    alloc: Global,
    asked: OfOperation,
    op: Op,
    dots: DotList,
}

/// The fixture of operations.
pub fn operations(alloc: Global, asked: OfOperation) -> Option<OperationFixture> {
    let dots = [dot(ME, 1), dot(ME, 2)];
    let dots = Vec::from_slice(alloc, &dots).ok()?;
    Some(OperationFixture {
        alloc,
        asked,
        op: operation(alloc, ME, Does::Stop)?,
        dots: DotList::new(dots),
    })
}

impl Fixture for OperationFixture {
    fn call(&mut self) -> Said {
        match self.asked {
            OfOperation::Copy => of_any(self.op.copy()),
            OfOperation::CopyAct => of_any(self.op.act().copy()),
            OfOperation::CopyDots => of_any(self.dots.copy()),
            OfOperation::SeeWish => of_any(self.op.wish_act(self.alloc)),
            OfOperation::SeePermit => of_any(self.op.permit_act(self.alloc)),
            OfOperation::SeeDrain => of_any(self.op.drain_act(self.alloc)),
        }
    }

    fn is_as_before(&self) -> bool {
        true
    }
}
