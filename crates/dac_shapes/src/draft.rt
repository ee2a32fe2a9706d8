//! The contents of a configuration text, as they are written.

ghost use Rattle.std.specs.Prelude.{◌≡◌};
ghost use Rattle.dac_shapes.specs.Written.{put, put_section, written};
ghost use Rattle.dac_shapes.specs.Views.{draft_of, names_of, param_of, section_of, sections_of};

use crate::param::{Param, Section};
use std::alloc::Global;

/// How long a starting node waits for the other nodes (OTP's kernel parameter `sync_nodes_timeout`).
#[derive(Clone, Copy, Debug, PartialEq, Eq)]
pub enum SyncWait {
    /// The parameter isn't defined: the node doesn't wait.
    NoSync,
    /// Until all of them are up.
    Forever,
    /// At most this many milliseconds.
    Ms(u32),
}

/// An application as the text lists it (OTP's kernel parameter `distributed`).
#[derive(Drop)]
pub struct DraftApp<'a> {
    /// The application's name, without quotes.
    pub name: &'a [u8],
    /// How long a failover waits, in milliseconds; 0 if the text has no timeout.
    pub timeout: u32,
    /// The nodes by priority: each item of the list is a group, either a single node or a tuple.
    pub groups: Vec<Vec<&'a [u8]>>,
}

/// Whether an application is permitted to run (OTP's kernel parameter `permissions`).
#[derive(Clone, Copy)]
pub struct Permission<'a> {
    /// The application's name; `distributed` doesn't necessarily list it.
    pub name: &'a [u8],
    /// Whether it is permitted until a command changes this.
    pub value: bool,
}

/// The contents of a text, with names borrowed from it.
#[derive(Drop)]
pub struct Draft<'a> {
    /// The applications in the order of the text.
    pub apps: Vec<DraftApp<'a>>,
    /// The permissions in the order of the text, as written: an application can have several.
    pub permissions: Vec<Permission<'a>>,
    /// The nodes that a start requires (`sync_nodes_mandatory`), as written.
    pub mandatory: Vec<&'a [u8]>,
    /// The nodes that a start waits for but doesn't require (`sync_nodes_optional`), as written.
    pub optional: Vec<&'a [u8]>,
    /// How long a starting node waits for both.
    pub sync_wait: SyncWait,
    /// The names of all nodes, each once, in order of first occurrence.
    pub nodes: Vec<&'a [u8]>,
}

impl<'a> Draft<'a> {
    fn put(&mut self, param: Param<'a>)
        ensures { draft_of self.new ≡ put (draft_of self.old) (param_of param.entry) }
    {
        match param {
            Param::Distributed(apps) => self.apps = apps,
            Param::Permissions(permissions) => self.permissions = permissions,
            Param::Mandatory(names) => self.mandatory = names,
            Param::Optional(names) => self.optional = names,
            Param::Timeout(wait) => self.sync_wait = wait,
            Param::Other => {}
        }
    }

    fn put_section(&mut self, section: Section<'a>)
        ensures { draft_of self.new ≡ put_section (draft_of self.old) (section_of section.entry) }
    {
        let Section::Kernel(params) = section else {
            return;
        };
        for param in params {
            self.put(param);
        }
    }

    /// The draft of these sections, with these nodes.
    pub fn of_sections(alloc: Global, sections: Vec<Section<'a>>, nodes: Vec<&'a [u8]>) -> Self
        ensures { draft_of result
            ≡ written (sections_of sections.entry.items) (names_of nodes.entry.items) }
    {
        let mut draft = Draft {
            apps: Vec::new(alloc),
            permissions: Vec::new(alloc),
            mandatory: Vec::new(alloc),
            optional: Vec::new(alloc),
            sync_wait: SyncWait::NoSync,
            nodes,
        };
        for section in sections {
            draft.put_section(section);
        }
        draft
    }
}
