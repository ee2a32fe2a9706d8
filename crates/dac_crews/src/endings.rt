//! Closing the sites of a run.

ghost use Rattle.std.specs.Prelude.{◌≡◌};

use crate::assignments::Shared;
use crate::phases::{Outcome, Seen};
use crate::tasks::Task;
use dac_base::NodeId;
use dac_run::{Either, parted};
use dac_workers::{Closed, Page, PageReader, RunFault, Seat, Site, SiteName, Watch};
use std::alloc::Global;
use std::sync::Wait;

/// A site's seats after the run, the workers of the sites opened before it, and the outcome so far.
#[derive(Drop)]
pub(crate) struct Back<L: SiteName, W> {
    pub(crate) seats: Vec<Seat<L>>,
    /// The workers of the sites opened before it.
    pub(crate) rest: Vec<W>,
    pub(crate) outcome: Outcome,
}

/// Puts a worker's seat and a caller's reads into the lists.
fn put_back<L: SiteName, H: Watch>(
    node: NodeId,
    task: Task<'_, L, H>,
    seats: &mut Vec<Seat<L>>,
    all: &mut Vec<Seen>,
) -> Result<(), RunFault> {
    let (seat, reads) = task.into_parts();
    let caller = seat.number();
    seats.push(seat)?;
    if let Some(reads) = reads {
        all.push(Seen {
            node,
            caller,
            reads,
        })?;
    }
    Ok(())
}

/// Takes back this site's seats from its tasks, which follow the other workers, and adds the reads to the outcome.
pub(crate) fn back_of<L: SiteName, H: Watch, W: Drop>(
    alloc: Global,
    node: NodeId,
    workers: Vec<Either<W, Task<'_, L, H>>>,
    mut outcome: Outcome,
) -> Result<Back<L, W>, RunFault> {
    let (rest, tasks) = parted(alloc, workers)?;
    let mut seats = Vec::new(alloc);
    for task in tasks {
        put_back(node, task, &mut seats, &mut outcome.seen)?;
    }
    Ok(Back {
        seats,
        rest,
        outcome,
    })
}

/// Ends a site that can't return its journal, because its seats are lost with its workers.
fn shut<L: SiteName, R: Wait>(rt: &R, alloc: Global, site: Site<L>)
    requires { L.seats ≡ L.parts }
{
    let _ = site.close(rt, Vec::new(alloc));
}

/// The final page, read by the reader kept for it.
fn last_page<L: SiteName>(node: NodeId, last: Option<PageReader<L>>) -> Result<Page, RunFault> {
    match last {
        Some(mut reader) => match reader.read() {
            Some(page) => Ok(page),
            None => Err(RunFault::NoPage { node }),
        },
        None => Err(RunFault::NoPage { node }),
    }
}

/// Closes the site of a node, and adds its journal and its final page to the outcome.
fn close<L: SiteName, R: Wait>(
    rt: &R,
    node: NodeId,
    site: Site<L>,
    seats: Vec<Seat<L>>,
    last: Option<PageReader<L>>,
    outcome: &mut Outcome,
) -> Result<(), RunFault>
    requires { L.seats ≡ L.parts }
{
    let page = last_page(node, last);
    let closed: Closed = match site.close(rt, seats) {
        Ok(closed) => closed,
        Err(why) => return Err(RunFault::Close { node, why }),
    };
    outcome.closed.push(closed)?;
    outcome.pages.push(page?)?;
    Ok(())
}

/// Ends the site of a node after the run, also if the run failed.
pub(crate) fn end_site<L: SiteName, W: Drop, H: Watch, R: Wait>(
    rt: &R,
    shared: &Shared<'_, H>,
    node: NodeId,
    site: Site<L>,
    last: Option<PageReader<L>>,
    back: Result<Back<L, W>, RunFault>,
) -> Result<(Vec<W>, Outcome), RunFault>
    requires { L.seats ≡ L.parts }
{
    match back {
        Ok(
            Back {
                seats,
                rest,
                mut outcome,
            },
        ) => {
            close(rt, node, site, seats, last, &mut outcome)?;
            Ok((rest, outcome))
        }
        Err(fault) => {
            shut(rt, shared.alloc, site);
            Err(fault)
        }
    }
}
