//! Lists of workers of two kinds.

use crate::either::Either;
use dac_base::NoMemory;
use std::alloc::Global;

/// One list of all workers: those of the first kind, then those of the second.
pub fn joined<W: Drop, V: Drop>(
    alloc: Global,
    ones: Vec<W>,
    others: Vec<V>,
) -> Result<Vec<Either<W, V>>, NoMemory> {
    let mut all = Vec::new(alloc);
    for one in ones {
        all.push(Either::One(one))?;
    }
    for other in others {
        all.push(Either::Other(other))?;
    }
    Ok(all)
}

/// The workers of each kind, in order.
pub fn parted<W: Drop, V: Drop>(
    alloc: Global,
    all: Vec<Either<W, V>>,
) -> Result<(Vec<W>, Vec<V>), NoMemory> {
    let mut ones = Vec::new(alloc);
    let mut others = Vec::new(alloc);
    for either in all {
        match either {
            Either::One(one) => ones.push(one)?,
            Either::Other(other) => others.push(other)?,
        }
    }
    Ok((ones, others))
}
