//! Compares pages, part by part.

ghost use Rattle.std.specs.Prelude.{◌≡◌, ◌↔◌, IsTrue};

use dac_base::NodeId;
use dac_chains::{Claim, Life};
use dac_origins::Origin;
use dac_pages::Page;
use dac_placement::Verdict;
use dac_status::{AppSummary, Mark, Summary};

fn same_origin(origin: &Option<Origin>, other: &Option<Origin>) -> bool
    ensures { IsTrue result ↔ (origin.now ≡ other.now) }
{
    match (origin, other) {
        (None, None) => true,
        (Some(one), Some(other_one)) => one == other_one,
        _ => false,
    }
}

fn same_node(node: &Option<NodeId>, other: &Option<NodeId>) -> bool
    ensures { IsTrue result ↔ (node.now ≡ other.now) }
{
    match (node, other) {
        (None, None) => true,
        (Some(one), Some(other_one)) => one == other_one,
        _ => false,
    }
}

fn same_life(life: &Option<Life>, other: &Option<Life>) -> bool
    ensures { IsTrue result ↔ (life.now ≡ other.now) }
{
    match (life, other) {
        (None, None) => true,
        (Some(one), Some(other_one)) => one == other_one,
        _ => false,
    }
}

fn is_claim(claim: &Claim, other: &Claim) -> bool
    ensures { IsTrue result ↔ (claim.now ≡ other.now) }
{
    claim.term == other.term
        && claim.origin == other.origin
        && claim.how == other.how
        && same_node(&claim.from, &other.from)
}

fn same_claim(claim: &Option<Claim>, other: &Option<Claim>) -> bool
    ensures { IsTrue result ↔ (claim.now ≡ other.now) }
{
    match (claim, other) {
        (None, None) => true,
        (Some(one), Some(other_one)) => is_claim(one, other_one),
        _ => false,
    }
}

fn same_verdict(verdict: &Verdict, other: &Verdict) -> bool
    ensures { IsTrue result ↔ (verdict.now ≡ other.now) }
{
    verdict == other
}

fn same_mark(mark: &Mark, other: &Mark) -> bool
    ensures { IsTrue result ↔ (mark.now ≡ other.now) }
{
    mark == other
}

fn same_marks(marks: &[Mark], others: &[Mark]) -> bool
    ensures { IsTrue result ↔ (marks.now ≡ others.now) }
{
    if marks.len() != others.len() {
        return false;
    }
    for i in 0..marks.len() {
        if !same_mark(&marks[i], &others[i]) {
            return false;
        }
    }
    true
}

fn same_lives(lives: &[Option<Life>], others: &[Option<Life>]) -> bool
    ensures { IsTrue result ↔ (lives.now ≡ others.now) }
{
    if lives.len() != others.len() {
        return false;
    }
    for i in 0..lives.len() {
        if !same_life(&lives[i], &others[i]) {
            return false;
        }
    }
    true
}

fn same_flags(flags: &[bool], others: &[bool]) -> bool
    ensures { IsTrue result ↔ (flags.now ≡ others.now) }
{
    if flags.len() != others.len() {
        return false;
    }
    for i in 0..flags.len() {
        if flags[i] != others[i] {
            return false;
        }
    }
    true
}

fn same_app(app: &AppSummary, other: &AppSummary) -> bool
    ensures { IsTrue result ↔ (app.now ≡ other.now) }
{
    same_claim(&app.claim, &other.claim)
        && same_verdict(&app.verdict, &other.verdict)
        && same_marks(&app.marks, &other.marks)
}

fn same_apps(apps: &[AppSummary], others: &[AppSummary]) -> bool
    ensures { IsTrue result ↔ (apps.now ≡ others.now) }
{
    if apps.len() != others.len() {
        return false;
    }
    for i in 0..apps.len() {
        if !same_app(&apps[i], &others[i]) {
            return false;
        }
    }
    true
}

fn same_summary(summary: &Summary, other: &Summary) -> bool
    ensures { IsTrue result ↔ (summary.now ≡ other.now) }
{
    summary.heard == other.heard
        && summary.known == other.known
        && same_lives(&summary.lives, &other.lives)
        && same_flags(&summary.drained, &other.drained)
        && same_apps(&summary.apps, &other.apps)
}

/// Returns whether two pages are equal.
pub(crate) fn same_page(page: &Page, other: &Page) -> bool
    ensures { IsTrue result ↔ (page.now ≡ other.now) }
{
    page.place == other.place
        && same_origin(&page.origin, &other.origin)
        && same_summary(&page.summary, &other.summary)
}
