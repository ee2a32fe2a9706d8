//! The sections of a text and their parameters.

ghost use Rattle.std.specs.Prelude.{◌≤◌, Bool, Option};
ghost use Rattle.dac_tokens.specs.Gives.{Gives};
ghost use Rattle.dac_shapes.specs.declared.param.ParamName.{ParamName as Known};
ghost use Rattle.dac_shapes.specs.Shape.{param_name_of, names_kernel, param_value_at, param_rest_at, section_rest_at, section_at, end_at, file_at};
ghost use Rattle.dac_shapes.specs.Views.{param_of, section_of, draft_of, parser_state, tokens_left};
ghost use Rattle.dac_shapes.specs.Written.{Param as WrittenParam, Section as WrittenSection};

use crate::draft::{Draft, DraftApp, Permission};
use crate::list::Elements;
use crate::names::spells;
use crate::nodes::SyncNodes;
use crate::pairs::{NamedPair, NamedPairs};
use crate::param::{Param, ParamName, Section, has_kernel, has_param};
use crate::parser::{Parser, fault};
use dac_tokens::{ConfigFault, FaultKind, Symbol, Token};

impl<'a> Parser<'a> {
    /// Reads the value of the parameter of this name.
    #[tactic(auto, unfolding(crate::specs::Shape::param_value_at))]
    fn param_value(&mut self, name: ParamName) -> Result<Param<'a>, ConfigFault>
        ensures read { Gives (λ param. (param_of param, parser_state self.new)) result
            (param_value_at name (parser_state self.old)) }
        ensures left { tokens_left self.new ≤ tokens_left self.old }
    {
        match name {
            ParamName::Distributed => self
                .list::<NamedPairs<DraftApp<'a>>>()
                .map(Param::Distributed),
            ParamName::Permissions => self
                .list::<NamedPairs<Permission<'a>>>()
                .map(Param::Permissions),
            ParamName::Mandatory => self.list::<SyncNodes>().map(Param::Mandatory),
            ParamName::Optional => self.list::<SyncNodes>().map(Param::Optional),
            ParamName::Timeout => {
                self.advance()?;
                let wait = self.wait()?;
                Ok(Param::Timeout(wait))
            }
        }
    }

    /// Reads the full stop and the end after it. Returns the offset of the end.
    #[tactic(auto, unfolding(crate::specs::Shape::end_at))]
    fn end(&mut self) -> Result<usize, ConfigFault>
        ensures { Gives (λ at. (at, parser_state self.new)) result
            (end_at (parser_state self.old)) }
    {
        self.after(Symbol::FullStop)?;
        match self.token.token {
            Token::End => Ok(self.token.at),
            _ => Err(self.fault(FaultKind::BadShape)),
        }
    }

    /// Reads a whole file, up to the end of the text.
    #[tactic(auto, unfolding(crate::specs::Shape::file_at))]
    pub fn file(mut self) -> Result<Draft<'a>, ConfigFault>
        ensures { Gives draft_of result (file_at (parser_state self.entry)) }
    {
        let sections = self.list::<Sections>()?;
        let end = self.end()?;
        let draft = Draft::of_sections(self.alloc, sections, self.met);
        if draft.apps.is_empty() {
            return Err(fault(FaultKind::NoDistributed, end));
        }
        Ok(draft)
    }
}

impl<'a> NamedPair<'a> for Param<'a> {
    type Name = Option<ParamName>;

    ghost Named = { Option Known };

    ghost named = { λ name. name };

    ghost Said = { WrittenParam };

    ghost said = { param_of };

    ghost name_at = { param_name_of };

    ghost rest_at = { param_rest_at };

    #[tactic(auto, using(crate::proofs::Loops::has_params), unfolding(crate::specs::Shape::param_name_of))]
    fn name(parser: &Parser<'a>, before: &[Param<'a>]) -> Result<Option<ParamName>, ConfigFault> {
        let name = parser.atom()?;
        let Some(param) = ParamName::of_name(name) else {
            return Ok(None);
        };
        if has_param(param, before) {
            return Err(parser.fault(FaultKind::BadShape));
        }
        Ok(Some(param))
    }

    #[tactic(auto, unfolding(crate::specs::Shape::param_rest_at))]
    fn rest(parser: &mut Parser<'a>, name: Option<ParamName>) -> Result<Param<'a>, ConfigFault> {
        let Some(name) = name else {
            parser.pass()?;
            return Ok(Param::Other);
        };
        let param = parser.param_value(name)?;
        parser.close_pair(param)
    }
}

/// Sections, of which at most one is `kernel`.
pub struct Sections;

impl<'a> Elements<'a> for Sections {
    type Element = Section<'a>;

    ghost Said = { WrittenSection };

    ghost said = { section_of };

    ghost read_at = { section_at };

    #[tactic(auto, unfolding(crate::specs::Shape::section_at))]
    fn read(parser: &mut Parser<'a>, before: &[Section<'a>]) -> Result<Section<'a>, ConfigFault> {
        if parser.is_text() {
            return Err(parser.fault(FaultKind::Unsupported));
        }
        NamedPairs::read(parser, before)
    }
}

impl<'a> NamedPair<'a> for Section<'a> {
    type Name = bool;

    ghost Named = { Bool };

    ghost named = { λ kernel. kernel };

    ghost Said = { WrittenSection };

    ghost said = { section_of };

    ghost name_at = { names_kernel };

    ghost rest_at = { section_rest_at };

    #[tactic(auto, using(crate::proofs::Loops::has_kernels), unfolding(crate::specs::Shape::names_kernel))]
    fn name(parser: &Parser<'a>, before: &[Section<'a>]) -> Result<bool, ConfigFault> {
        let name = parser.atom()?;
        if !spells(b"kernel", name) {
            return Ok(false);
        }
        if has_kernel(before) {
            return Err(parser.fault(FaultKind::BadShape));
        }
        Ok(true)
    }

    #[tactic(auto, unfolding(crate::specs::Shape::kernel_at, crate::specs::Shape::section_rest_at))]
    fn rest(parser: &mut Parser<'a>, kernel: bool) -> Result<Section<'a>, ConfigFault> {
        if !kernel {
            parser.pass()?;
            return Ok(Section::Other);
        }
        let params = parser.list::<NamedPairs<Param<'a>>>()?;
        parser.close_pair(Section::Kernel(params))
    }
}
