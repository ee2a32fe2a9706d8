//! Acts: the effects of operations.
ghost use Rattle.std.specs.Prelude.{◌≡◌, ◌↔◌, IfOk, IsTrue};
ghost use Rattle.dac_operations.specs.Operations.{reports_up, over_list};

use dac_base::{AppId, NoMemory, NodeId};
use dac_chains::How;
use dac_origins::Dot;
use dac_wishes::{DotList, Key};

/// The effect of an operation.
#[derive(Debug, Drop)]
pub enum Act {
    /// The node of the dot came up, as the dot's incarnation.
    Up,
    /// An incarnation of another node is declared down.
    Down {
        /// The node declared down.
        node: NodeId,
        /// Its incarnation that is declared down.
        inc: u64,
    },
    /// The key's application is permitted or not at the key's node and incarnation. Replaces the operations that `over`
    /// names.
    Permit {
        /// The application, and the incarnation where it is permitted or not.
        key: Key,
        /// True to permit it, false to forbid it.
        value: bool,
        /// The operations that this one replaces, in ascending order.
        over: DotList,
    },
    /// The key's application is wished to run at the key's node and incarnation. Replaces the operations that `over`
    /// names.
    Start {
        /// The application, and the incarnation where it is wished to run.
        key: Key,
        /// The operations that this one replaces, in ascending order.
        over: DotList,
    },
    /// The starts that `over` names are revoked.
    Stop {
        /// The application, and the incarnation where it was wished to run.
        key: Key,
        /// The operations that this one replaces, in ascending order.
        over: DotList,
    },
    /// The node's incarnation is drained or not; a drained one shall run no application. Replaces the operations that
    /// `over` names.
    Drain {
        /// The node drained or not.
        node: NodeId,
        /// Its incarnation that is drained or not.
        inc: u64,
        /// True to drain it, false to undrain it.
        value: bool,
        /// The operations that this one replaces, in ascending order.
        over: DotList,
    },
    /// The issuer claims that it runs the application.
    Claim {
        /// The application claimed.
        app: AppId,
        /// The term (epoch) of the claim, from 1.
        term: u64,
        /// How the application came there.
        how: How,
        /// The node that it was taken from, unless it was started or moved.
        from: Option<NodeId>,
    },
}

impl Act {
    /// The dots that the act replaces.
    pub fn over(&self) -> &[Dot]
        ensures { result.now ≡ over_list self.now }
    {
        match self {
            Act::Permit {
                key: _,
                value: _,
                over,
            } => over.as_slice(),
            Act::Start { key: _, over } | Act::Stop { key: _, over } => over.as_slice(),
            Act::Drain {
                node: _,
                inc: _,
                value: _,
                over,
            } => over.as_slice(),
            Act::Up | Act::Down { .. } | Act::Claim { .. } => &[],
        }
    }

    /// Whether the act is [`Act::Up`].
    pub fn reports_up(&self) -> bool
        ensures { result ≡ reports_up self.now }
    {
        match self {
            Act::Up => true,
            _ => false,
        }
    }

    /// Whether both acts are equal.
    pub fn equal(&self, other: &Self) -> bool
        ensures { IsTrue result ↔ (self.now ≡ other.now) }
    {
        match (self, other) {
            (Act::Up, Act::Up) => true,
            (
                Act::Down { node, inc },
                Act::Down {
                    node: other_node,
                    inc: other_inc,
                },
            ) => node == other_node && inc == other_inc,
            (
                Act::Permit { key, value, over },
                Act::Permit {
                    key: other_key,
                    value: other_value,
                    over: other_over,
                },
            ) => key == other_key && value == other_value && over.equal(other_over),
            (
                Act::Start { key, over },
                Act::Start {
                    key: other_key,
                    over: other_over,
                },
            ) => key == other_key && over.equal(other_over),
            (
                Act::Stop { key, over },
                Act::Stop {
                    key: other_key,
                    over: other_over,
                },
            ) => key == other_key && over.equal(other_over),
            (
                Act::Drain {
                    node,
                    inc,
                    value,
                    over,
                },
                Act::Drain {
                    node: other_node,
                    inc: other_inc,
                    value: other_value,
                    over: other_over,
                },
            ) => {
                node == other_node
                    && inc == other_inc
                    && value == other_value
                    && over.equal(other_over)
            }
            (
                Act::Claim {
                    app,
                    term,
                    how,
                    from,
                },
                Act::Claim {
                    app: other_app,
                    term: other_term,
                    how: other_how,
                    from: other_from,
                },
            ) => app == other_app && term == other_term && how == other_how && from == other_from,
            _ => false,
        }
    }

    /// An equal act.
    pub fn copy(&self) -> Result<Self, NoMemory>
        ensures { IfOk result (λ copied. copied ≡ self.now) }
    {
        match self {
            Act::Up => Ok(Act::Up),
            Act::Down { node, inc } => Ok(Act::Down {
                node: *node,
                inc: *inc,
            }),
            Act::Permit { key, value, over } => {
                let over = over.copy()?;
                Ok(Act::Permit {
                    key: *key,
                    value: *value,
                    over,
                })
            }
            Act::Start { key, over } => {
                let over = over.copy()?;
                Ok(Act::Start { key: *key, over })
            }
            Act::Stop { key, over } => {
                let over = over.copy()?;
                Ok(Act::Stop { key: *key, over })
            }
            Act::Drain {
                node,
                inc,
                value,
                over,
            } => {
                let over = over.copy()?;
                Ok(Act::Drain {
                    node: *node,
                    inc: *inc,
                    value: *value,
                    over,
                })
            }
            Act::Claim {
                app,
                term,
                how,
                from,
            } => Ok(Act::Claim {
                app: *app,
                term: *term,
                how: *how,
                from: *from,
            }),
        }
    }
}
