//! The lists of a report, as types whose values are the lists. Each `Drop` is written by hand, so that a proof sees it
//! as one call.

ghost use Rattle.std.specs.Prelude.{◌≡◌, IfOk};

use crate::report::LineAnswer;
use dac_base::NoMemory;
use dac_crews::{Closed, Page};
use std::alloc::Global;
use std::boxed::Box;
use std::marker::Model;

/// The results of a phase's lines, in their order.
pub struct AnswerList {
    answers: Vec<LineAnswer>,
}

impl Drop for AnswerList {
    fn drop(self) {
        let AnswerList { answers: _answers } = self;
    }
}

impl Model for AnswerList {
    ghost use Rattle.std.specs.Prelude.{List};
    ghost use Rattle.std.specs.Coded.{coded_list};
    ghost use Rattle.dac_live.specs.declared.report.LineAnswer.{LineAnswer};
    ghost use Rattle.dac_live.specs.contracts.report.LineAnswer as answer_row;

    ghost Value = { List LineAnswer };

    ghost coded = { coded_list answer_row.the_row.coded };

    ghost view = { λ a. a.answers.items };
}

impl AnswerList {
    /// The results of a vector, in its order.
    pub fn new(answers: Vec<LineAnswer>) -> Self
        ensures { result ≡ answers.items }
    {
        AnswerList { answers }
    }

    /// The vector of the results.
    pub fn into_vec(self) -> Vec<LineAnswer>
        ensures { result.items ≡ self }
    {
        let AnswerList { answers } = self;
        answers
    }

    /// The results, in order.
    pub fn as_slice(&self) -> &[LineAnswer]
        ensures { result.now ≡ self.now }
    {
        self.answers.as_slice()
    }
}

/// The results of the lines of each phase, in the order of the phases.
pub struct AnswersByPhase {
    phases: Vec<AnswerList>,
}

impl Drop for AnswersByPhase {
    fn drop(self) {
        let AnswersByPhase { phases: _phases } = self;
    }
}

impl Model for AnswersByPhase {
    ghost use Rattle.std.specs.Prelude.{List};
    ghost use Rattle.std.specs.Coded.{coded_list};
    ghost use Rattle.dac_live.specs.declared.report.LineAnswer.{LineAnswer};
    ghost use Rattle.dac_live.specs.contracts.lists.AnswerList as list_row;

    ghost Value = { List (List LineAnswer) };

    ghost coded = { coded_list list_row.the_row.coded };

    ghost view = { λ a. a.phases.items };
}

impl AnswersByPhase {
    /// The lists of a vector, in its order.
    pub fn new(phases: Vec<AnswerList>) -> Self
        ensures { result ≡ phases.items }
    {
        AnswersByPhase { phases }
    }

    /// The vector of the lists.
    pub fn into_vec(self) -> Vec<AnswerList>
        ensures { result.items ≡ self }
    {
        let AnswersByPhase { phases } = self;
        phases
    }

    /// The lists, in order.
    pub fn as_slice(&self) -> &[AnswerList]
        ensures { result.now ≡ self.now }
    {
        self.phases.as_slice()
    }
}

/// A page outside of the list that it belongs to, because most lines read none.
pub struct BoxedPage {
    page: Box<Page>,
}

impl Drop for BoxedPage {
    fn drop(self) {
        let BoxedPage { page: _page } = self;
    }
}

impl Model for BoxedPage {
    ghost use Rattle.dac_pages.specs.declared.page.Page.{Page};
    ghost use Rattle.dac_pages.specs.contracts.page.Page as page_row;

    ghost Value = { Page };

    ghost coded = { page_row.the_row.coded };

    ghost view = { λ b. b.page.value };
}

impl BoxedPage {
    /// The page in a box of its own.
    pub fn new(alloc: Global, page: Page) -> Result<Self, NoMemory>
        ensures { IfOk result (λ boxed. boxed ≡ page) }
    {
        let page = Box::new(alloc, page)?;
        Ok(BoxedPage { page })
    }

    /// The page.
    pub fn page(&self) -> &Page
        ensures { result.now ≡ self.now }
    {
        &self.page
    }
}

/// For each line of a phase, in order, the page that it read, if any.
pub struct ReadList {
    reads: Vec<Option<BoxedPage>>,
}

impl Drop for ReadList {
    fn drop(self) {
        let ReadList { reads: _reads } = self;
    }
}

impl Model for ReadList {
    ghost use Rattle.std.specs.Prelude.{List, Option};
    ghost use Rattle.std.specs.Coded.{coded_list, coded_option};
    ghost use Rattle.dac_pages.specs.declared.page.Page.{Page};
    ghost use Rattle.dac_live.specs.contracts.lists.BoxedPage as page_row;

    ghost Value = { List (Option Page) };

    ghost coded = { coded_list (coded_option page_row.the_row.coded) };

    ghost view = { λ a. a.reads.items };
}

impl ReadList {
    /// The reads of a vector, in its order.
    pub fn new(reads: Vec<Option<BoxedPage>>) -> Self
        ensures { result ≡ reads.items }
    {
        ReadList { reads }
    }

    /// The vector of the reads.
    pub fn into_vec(self) -> Vec<Option<BoxedPage>>
        ensures { result.items ≡ self }
    {
        let ReadList { reads } = self;
        reads
    }

    /// The reads, in order.
    pub fn as_slice(&self) -> &[Option<BoxedPage>]
        ensures { result.now ≡ self.now }
    {
        self.reads.as_slice()
    }
}

/// The reads of the lines of each phase, in the order of the phases.
pub struct ReadsByPhase {
    phases: Vec<ReadList>,
}

impl Drop for ReadsByPhase {
    fn drop(self) {
        let ReadsByPhase { phases: _phases } = self;
    }
}

impl Model for ReadsByPhase {
    ghost use Rattle.std.specs.Prelude.{List, Option};
    ghost use Rattle.std.specs.Coded.{coded_list};
    ghost use Rattle.dac_pages.specs.declared.page.Page.{Page};
    ghost use Rattle.dac_live.specs.contracts.lists.ReadList as list_row;

    ghost Value = { List (List (Option Page)) };

    ghost coded = { coded_list list_row.the_row.coded };

    ghost view = { λ a. a.phases.items };
}

impl ReadsByPhase {
    /// The lists of a vector, in its order.
    pub fn new(phases: Vec<ReadList>) -> Self
        ensures { result ≡ phases.items }
    {
        ReadsByPhase { phases }
    }

    /// The vector of the lists.
    pub fn into_vec(self) -> Vec<ReadList>
        ensures { result.items ≡ self }
    {
        let ReadsByPhase { phases } = self;
        phases
    }

    /// The lists, in order.
    pub fn as_slice(&self) -> &[ReadList]
        ensures { result.now ≡ self.now }
    {
        self.phases.as_slice()
    }
}

/// A page of each node, in order of name.
pub struct PageList {
    pages: Vec<Page>,
}

impl Drop for PageList {
    fn drop(self) {
        let PageList { pages: _pages } = self;
    }
}

impl Model for PageList {
    ghost use Rattle.std.specs.Prelude.{List};
    ghost use Rattle.std.specs.Coded.{coded_list};
    ghost use Rattle.dac_pages.specs.declared.page.Page.{Page};
    ghost use Rattle.dac_pages.specs.contracts.page.Page as page_row;

    ghost Value = { List Page };

    ghost coded = { coded_list page_row.the_row.coded };

    ghost view = { λ a. a.pages.items };
}

impl PageList {
    /// The pages of a vector, in its order.
    pub fn new(pages: Vec<Page>) -> Self
        ensures { result ≡ pages.items }
    {
        PageList { pages }
    }

    /// The vector of the pages.
    pub fn into_vec(self) -> Vec<Page>
        ensures { result.items ≡ self }
    {
        let PageList { pages } = self;
        pages
    }

    /// The pages, in order.
    pub fn as_slice(&self) -> &[Page]
        ensures { result.now ≡ self.now }
    {
        self.pages.as_slice()
    }
}

/// The closed journal of each node, in order of name.
pub struct ClosedList {
    journals: Vec<Closed>,
}

impl Drop for ClosedList {
    fn drop(self) {
        let ClosedList {
            journals: _journals,
        } = self;
    }
}

impl Model for ClosedList {
    ghost use Rattle.std.specs.Prelude.{List};
    ghost use Rattle.std.specs.Coded.{coded_list};
    ghost use Rattle.dac_crews.specs.Journals.{JournalValue};
    ghost use Rattle.dac_journal.specs.contracts.closed.Closed as journal_row;

    ghost Value = { List JournalValue };

    ghost coded = { coded_list journal_row.the_row.coded };

    ghost view = { λ a. a.journals.items };
}

impl ClosedList {
    /// The journals of a vector, in its order.
    pub fn new(journals: Vec<Closed>) -> Self
        ensures { result ≡ journals.items }
    {
        ClosedList { journals }
    }

    /// The vector of the journals.
    pub fn into_vec(self) -> Vec<Closed>
        ensures { result.items ≡ self }
    {
        let ClosedList { journals } = self;
        journals
    }

    /// The journals, in order.
    pub fn as_slice(&self) -> &[Closed]
        ensures { result.now ≡ self.now }
    {
        self.journals.as_slice()
    }
}
