//! The pages that lines read.

ghost use Rattle.std.specs.Prelude.{◌≡◌, ◌++◌, true, map, length, IfOk};
ghost use Rattle.std.specs.Option.{option_copied};
ghost use Rattle.dac_live.specs.Reads.{AreNoted, page_one, pages_in, pages_read};

use crate::lists::{BoxedPage, ReadList};
use dac_base::{NoMemory, NodeId};
use dac_crews::{Line, Page, Phase};
use std::alloc::Global;

/// Returns whether each line of a phase has an entry.
fn is_noted(phase: &Phase, noted: &ReadList) -> bool
    ensures { result ≡ true → length noted.now ≡ length phase.now.lines.items }
{
    noted.as_slice().len() == phase.lines.len()
}

/// Returns whether each line of each phase has an entry: the page that it read, or none.
pub fn are_noted(phases: &[Phase], reads: &[ReadList]) -> bool
    ensures { result ≡ true → AreNoted phases.now reads.now }
{
    if phases.len() != reads.len() {
        return false;
    }
    for i in 0..phases.len() {
        let phase = &phases[i];
        let noted = &reads[i];
        if !is_noted(phase, noted) {
            return false;
        }
    }
    true
}

/// The page that the line read, if it is a line of this node and read one.
fn page_in<'a>(line: &Line, read: &'a Option<BoxedPage>, node: NodeId) -> Option<&'a Page>
    ensures { option_copied result ≡ page_one node.0 (line.now, read.now) }
{
    if line.node != node {
        return None;
    }
    match read {
        Some(boxed) => Some(boxed.page()),
        None => None,
    }
}

/// Appends the pages that lines of this node read in a phase.
fn with_pages<'a>(
    mut all: Vec<&'a Page>,
    lines: &[Line],
    reads: &'a [Option<BoxedPage>],
    node: NodeId,
) -> Result<Vec<&'a Page>, NoMemory>
    requires { length reads.now ≡ length lines.now }
    ensures { IfOk result (λ more. map (λ p. p.now) more.items
        ≡ map (λ p. p.now) all.entry.items ++ pages_in node.0 lines.now reads.now) }
{
    for i in 0..lines.len() {
        let line = &lines[i];
        let read = &reads[i];
        match page_in(line, read, node) {
            Some(page) => all.push(page)?,
            None => {}
        }
    }
    Ok(all)
}

/// The pages that lines of this node read, over all phases, in order.
pub fn pages_read<'a>(
    alloc: Global,
    phases: &[Phase],
    reads: &'a [ReadList],
    node: NodeId,
) -> Result<Vec<&'a Page>, NoMemory>
    requires { AreNoted phases.now reads.now }
    ensures { IfOk result
        (λ all. map (λ p. p.now) all.items ≡ pages_read node.0 phases.now reads.now) }
{
    let mut all = Vec::new(alloc);
    for i in 0..phases.len() {
        let phase = &phases[i];
        let noted = &reads[i];
        all = with_pages(all, phase.lines.as_slice(), noted.as_slice(), node)?;
    }
    Ok(all)
}
