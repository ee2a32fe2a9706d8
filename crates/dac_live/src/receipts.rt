//! Compares reads with the receipts before them and the calls after them.

ghost use Rattle.std.specs.Prelude.{◌≡◌, ◌≤◌, ◌+◌, true, length, IfOk, IfSome, [], ◌∷◌, option_to_list};
ghost use Rattle.dac_base.specs.declared.limits.TheConstants.{MAX_NODES};
ghost use Rattle.dac_crews.specs.Journals.{calls_of};
ghost use Rattle.dac_live.specs.Lines.{AreAnswered};
ghost use Rattle.dac_live.specs.Reads.{AreNoted, receipt_by, own_one, own_in, own_of, asked_in, FollowsReceipts, NodeFollows, FollowReceipts};
ghost use Rattle.dac_live.specs.Following.{spans_from, IsToldIn, Follows};

use crate::lists::{AnswerList, BoxedPage, ReadList};
use crate::report::LineAnswer;
use dac_base::{NoMemory, NodeId};
use dac_crews::{Answer, CALLERS, Closed, Line, Phase, Record};
use dac_phases::is_of;
use std::alloc::Global;

/// The place of a caller's last receipt after a call at this place. A refusal gives no receipt, so the place before it,
/// `last`, stays.
fn receipt_by(last: u64, place: u64, answer: &Answer) -> u64
    ensures { result ≡ receipt_by last place answer.now }
{
    match answer {
        Ok(_) => place,
        Err(_) => last,
    }
}

/// The places of a caller's last receipt and of its next record, between two of its calls. Without a next record its
/// place is the one after the journal.
type Span = (u64, u64);

/// The spans of a seat: before its first record, and after each record.
fn spans_of(alloc: Global, records: &[Record], seat: u16) -> Result<Vec<Span>, NoMemory>
    ensures { IfOk result
        (λ all. all.items ≡ spans_from 0 (length records.now + 1) (calls_of seat records.now)) }
{
    let mut all = Vec::new(alloc);
    let mut last = 0;
    for i in 0..records.len() {
        let one = &records[i];
        if one.seat == seat {
            let place = i as u64 + 1;
            all.push((last, place))?;
            last = receipt_by(last, place, &one.answer);
        }
    }
    all.push((last, records.len() as u64 + 1))?;
    Ok(all)
}

/// Returns whether the result and the page of a line agree with the caller's calls before and after it.
fn is_told(span: Span, answer: &LineAnswer, read: &Option<BoxedPage>) -> bool
    ensures { result ≡ true → IsToldIn span answer.now read.now }
{
    let (receipt, next) = span;
    match (answer, read) {
        (LineAnswer::Done(_), None) => true,
        (LineAnswer::Fresh, Some(boxed)) => {
            let place = boxed.page().place;
            receipt <= place && place < next
        }
        (LineAnswer::Stale, Some(boxed)) => boxed.page().place < receipt,
        (LineAnswer::Stale, None) => true,
        _ => false,
    }
}

/// The number of the caller's calls after one of its lines.
fn asked_after(asked: usize, answer: &LineAnswer) -> usize
    requires { asked + 1 ≤ usize.MAX }
    ensures { result ≡ asked + asked_in ((answer.now, None) ∷ []) }
{
    match answer {
        LineAnswer::Done(_) => asked + 1,
        _ => asked,
    }
}

/// Checks one line, before which the caller has made `asked` calls. Returns their number after it, or `None` if the
/// line is this caller's and contradicts the calls before or after it.
fn follow_line(
    spans: &[Span],
    asked: usize,
    line: &Line,
    answer: &LineAnswer,
    read: &Option<BoxedPage>,
    node: NodeId,
    caller: u8,
) -> Option<usize>
    ensures { IfSome result (λ more. Follows spans.now asked more
        (option_to_list (own_one node.0 caller (line.now, (answer.now, read.now))))) }
{
    if !is_of(line, node, caller) {
        return Some(asked);
    }
    if asked >= spans.len() || !is_told(spans[asked], answer, read) {
        return None;
    }
    Some(asked_after(asked, answer))
}

/// Checks the lines of a phase, before which the caller has made `asked` calls. Returns their number after it, or
/// `None` if a line of this caller contradicts the calls before or after it.
fn follow_phase(
    spans: &[Span],
    asked: usize,
    lines: &[Line],
    answers: &[LineAnswer],
    reads: &[Option<BoxedPage>],
    node: NodeId,
    caller: u8,
) -> Option<usize>
    requires answers { length answers.now ≡ length lines.now }
    requires reads { length reads.now ≡ length lines.now }
    ensures { IfSome result (λ more. Follows spans.now asked more
        (own_in node.0 caller lines.now answers.now reads.now)) }
{
    let mut next = asked;
    for i in 0..lines.len() {
        let line = &lines[i];
        let answer = &answers[i];
        let read = &reads[i];
        match follow_line(spans, next, line, answer, read, node, caller) {
            Some(more) => next = more,
            None => return None,
        }
    }
    Some(next)
}

/// Returns whether each line of a caller agrees with the caller's calls before and after it.
fn caller_follows(
    alloc: Global,
    phases: &[Phase],
    answers: &[AnswerList],
    reads: &[ReadList],
    node: NodeId,
    caller: u8,
    records: &[Record],
) -> Result<bool, NoMemory>
    requires answered { AreAnswered phases.now answers.now }
    requires noted { AreNoted phases.now reads.now }
    ensures { IfOk result (λ b. b ≡ true → FollowsReceipts (calls_of caller records.now)
        (length records.now + 1)
        (own_of node.0 caller phases.now answers.now reads.now)) }
{
    let spans = spans_of(alloc, records, u16::from(caller))?;
    let mut asked = 0;
    for i in 0..phases.len() {
        let phase = &phases[i];
        let given = &answers[i];
        let noted = &reads[i];
        match follow_phase(
            spans.as_slice(),
            asked,
            phase.lines.as_slice(),
            given.as_slice(),
            noted.as_slice(),
            node,
            caller,
        ) {
            Some(more) => asked = more,
            None => return Ok(false),
        }
    }
    Ok(true)
}

/// Returns whether each line of a node's callers agrees with the caller's calls before and after it.
fn node_follows(
    alloc: Global,
    phases: &[Phase],
    answers: &[AnswerList],
    reads: &[ReadList],
    node: NodeId,
    records: &[Record],
) -> Result<bool, NoMemory>
    requires answered { AreAnswered phases.now answers.now }
    requires noted { AreNoted phases.now reads.now }
    ensures { IfOk result
        (λ b. b ≡ true → NodeFollows node.0 phases.now answers.now reads.now records.now) }
{
    for before in 0..CALLERS {
        let caller = before + 1;
        if !caller_follows(alloc, phases, answers, reads, node, caller, records)? {
            return Ok(false);
        }
    }
    Ok(true)
}

/// The first node at which the result of a caller's line contradicts the page that it read, or at which that page
/// contradicts the caller's calls before or after the line.
pub fn mismatched_read(
    alloc: Global,
    phases: &[Phase],
    answers: &[AnswerList],
    reads: &[ReadList],
    closed: &[Closed],
) -> Result<Option<NodeId>, NoMemory>
    requires few { length closed.now ≤ MAX_NODES }
    requires answered { AreAnswered phases.now answers.now }
    requires noted { AreNoted phases.now reads.now }
    ensures { IfOk result (λ strange. strange ≡ None
        → FollowReceipts phases.now answers.now reads.now closed.now) }
{
    for i in 0..closed.len() {
        let one = &closed[i];
        let node = NodeId(i as u8);
        if !node_follows(alloc, phases, answers, reads, node, one.records())? {
            return Ok(Some(node));
        }
    }
    Ok(None)
}
