//! The keys of permits and wishes.
use dac_base::{AppId, NodeId};
use dac_origins::MapKey;

/// An application at one incarnation of a node. Permits and wishes belong to one incarnation, so that after a restart
/// the configuration applies again.
///
/// Keys are ordered by application, then by node, then by incarnation.
#[derive(Clone, Copy, Debug, PartialEq, Eq, PartialOrd, Ord, Hash)]
pub struct Key {
    /// The application permitted or started.
    pub app: AppId,
    /// The node where it is permitted or started.
    pub node: NodeId,
    /// The incarnation of the node.
    pub inc: u64,
}

impl MapKey for Key {
    ghost use Rattle.dac_wishes.specs.laws.Keys.{exact_keys};

    ghost exact = { exact_keys };
}
