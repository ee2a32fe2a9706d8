//! The sections, and the parameters of the section `kernel`.

ghost use Rattle.std.specs.Prelude.{◌≡◌};
ghost use Rattle.std.specs.List.{list_any};
ghost use Rattle.dac_shapes.specs.Written.{name_of};
ghost use Rattle.dac_shapes.specs.Limits.{is_named, is_kernel};
ghost use Rattle.dac_shapes.specs.Shape.{param_named};
ghost use Rattle.dac_shapes.specs.Views.{param_of, section_of};

use crate::draft::{DraftApp, Permission, SyncWait};
use crate::names::spells;

/// The parameters that are read.
#[derive(Clone, Copy, PartialEq, Eq)]
pub enum ParamName {
    Distributed,
    Permissions,
    Mandatory,
    Optional,
    Timeout,
}

/// A parameter with its value, or one that is ignored.
#[derive(Drop)]
pub enum Param<'a> {
    Distributed(Vec<DraftApp<'a>>),
    Permissions(Vec<Permission<'a>>),
    Mandatory(Vec<&'a [u8]>),
    Optional(Vec<&'a [u8]>),
    Timeout(SyncWait),
    Other,
}

/// The section `kernel` with its parameters, or one that is ignored.
#[derive(Drop)]
pub enum Section<'a> {
    Kernel(Vec<Param<'a>>),
    Other,
}

impl ParamName {
    /// The parameter with this name in the text, if it is one that is read.
    pub fn of_name(name: &[u8]) -> Option<Self>
        ensures { result ≡ param_named name.now }
    {
        if spells(b"distributed", name) {
            return Some(ParamName::Distributed);
        }
        if spells(b"permissions", name) {
            return Some(ParamName::Permissions);
        }
        if spells(b"sync_nodes_mandatory", name) {
            return Some(ParamName::Mandatory);
        }
        if spells(b"sync_nodes_optional", name) {
            return Some(ParamName::Optional);
        }
        if spells(b"sync_nodes_timeout", name) {
            return Some(ParamName::Timeout);
        }
        None
    }
}

impl Param<'_> {
    /// The parameter's name, if it is one that is read.
    fn name(&self) -> Option<ParamName>
        ensures { result ≡ name_of (param_of self.now) }
    {
        match self {
            Param::Distributed(_) => Some(ParamName::Distributed),
            Param::Permissions(_) => Some(ParamName::Permissions),
            Param::Mandatory(_) => Some(ParamName::Mandatory),
            Param::Optional(_) => Some(ParamName::Optional),
            Param::Timeout(_) => Some(ParamName::Timeout),
            Param::Other => None,
        }
    }

    fn is(&self, name: ParamName) -> bool
        ensures { result ≡ is_named name (name_of (param_of self.now)) }
    {
        match self.name() {
            Some(other) => other == name,
            None => false,
        }
    }
}

impl Section<'_> {
    fn is_kernel(&self) -> bool
        ensures { result ≡ is_kernel (section_of self.now) }
    {
        match self {
            Section::Kernel(_) => true,
            Section::Other => false,
        }
    }
}

/// Whether one of the parameters has this name.
pub fn has_param(name: ParamName, params: &[Param<'_>]) -> bool
    ensures { result ≡ list_any (λ param. is_named name (name_of (param_of param))) params.now }
{
    params.iter().any(|param| param.is(name))
}

/// Whether one of the sections is `kernel`.
pub fn has_kernel(sections: &[Section<'_>]) -> bool
    ensures { result ≡ list_any (λ section. is_kernel (section_of section)) sections.now }
{
    sections.iter().any(Section::is_kernel)
}
