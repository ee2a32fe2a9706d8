//! What loads and first choices depend on: where applications run, and which nodes can run an application.
ghost use Rattle.std.specs.Prelude.{◌≡◌, ◌<◌, ℕ, Bool, Option};
ghost use Rattle.dac_base.specs.declared.AppId.{AppId as App};
ghost use Rattle.dac_base.specs.declared.NodeId.{NodeId as Node};

use dac_base::{AppId, NodeId};

/// Where each application runs.
pub trait Runs {
    /// How many applications there are.
    ghost apps: { Self → ℕ };

    /// Whether an application runs at a node.
    ghost runs: { Self → App → Node → Bool };

    /// How many applications there are.
    fn apps(&self) -> u16
        ensures { result ≡ apps self.now };

    /// Whether an application runs at a node.
    fn runs(&self, app: AppId, node: NodeId) -> bool
        requires { app.0 < apps self.now }
        ensures { result ≡ runs self.now app node };
}

/// The nodes as candidates for one application.
pub trait Candidates {
    /// How many nodes there are.
    ghost nodes: { Self → ℕ };

    /// A node's group in the application's list.
    ghost group: { Self → Node → Option ℕ };

    /// Whether a node in a group can run the application.
    ghost eligible: { Self → Node → Bool };

    /// How many nodes there are.
    fn nodes(&self) -> u8
        ensures { result ≡ nodes self.now };

    /// A node's group in the application's list, from 0.
    fn group(&self, node: NodeId) -> Option<u16>
        ensures { result ≡ group self.now node };

    /// Whether a node in a group can run the application.
    fn is_eligible(&self, node: NodeId) -> bool
        ensures { result ≡ eligible self.now node };
}
