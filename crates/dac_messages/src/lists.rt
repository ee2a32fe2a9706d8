//! Lists in replies, whose contracts see a list instead of a vector.
ghost use Rattle.std.specs.Prelude.{◌≡◌, ◌↔◌, IfOk, IsTrue};

use dac_base::{AppId, NoMemory};
use dac_state::Op;
use std::marker::Model;

/// A list of operations, in the order of their vector. Contracts see it as the list.
pub struct OpList {
    operations: Vec<Op>,
}

/// Written out so that a drop is one call in every proof.
impl Drop for OpList {
    fn drop(self) {
        let OpList {
            operations: _operations,
        } = self;
    }
}

impl Model for OpList {
    ghost use Rattle.std.specs.Prelude.{List};
    ghost use Rattle.std.specs.Coded.{coded_list};
    ghost use Rattle.dac_operations.specs.Operations.{Operation};
    ghost use Rattle.dac_operations.specs.contracts.op.Op as operation;

    ghost Value = { List Operation };

    ghost coded = { coded_list operation.the_row.coded };

    ghost view = { λ a. a.operations.items };
}

impl OpList {
    /// The operations of a vector, in its order.
    pub fn new(operations: Vec<Op>) -> Self
        ensures { result ≡ operations.items }
    {
        OpList { operations }
    }

    /// The vector of the operations, in their order.
    pub fn into_vec(self) -> Vec<Op>
        ensures { result.items ≡ self }
    {
        let OpList { operations } = self;
        operations
    }

    /// The operations, in their order.
    pub fn as_slice(&self) -> &[Op]
        ensures { result.now ≡ self.now }
    {
        self.operations.as_slice()
    }

    /// Whether both lists have equal operations in the same order.
    pub fn equal(&self, other: &Self) -> bool
        ensures { IsTrue result ↔ (self.now ≡ other.now) }
    {
        if self.operations.len() != other.operations.len() {
            return false;
        }
        for i in 0..self.operations.len() {
            if !self.operations[i].equal(&other.operations[i]) {
                return false;
            }
        }
        true
    }

    /// An equal list.
    pub fn copy(&self) -> Result<Self, NoMemory>
        ensures { IfOk result (λ copied. copied ≡ self.now) }
    {
        let mut operations = Vec::with_capacity(
            *self.operations.allocator(),
            self.operations.len(),
        )?;
        for operation in &self.operations {
            operations.push(operation.copy()?)?;
        }
        Ok(OpList { operations })
    }
}

/// A list of applications, in the order of their vector. Contracts see it as the list.
pub struct AppList {
    apps: Vec<AppId>,
}

/// Written out so that a drop is one call in every proof.
impl Drop for AppList {
    fn drop(self) {
        let AppList { apps: _apps } = self;
    }
}

impl Model for AppList {
    ghost use Rattle.std.specs.Prelude.{List};
    ghost use Rattle.dac_base.specs.declared.AppId.{AppId};

    ghost Value = { List AppId };

    ghost view = { λ a. a.apps.items };
}

impl AppList {
    /// The applications of a vector, in its order.
    pub fn new(apps: Vec<AppId>) -> Self
        ensures { result ≡ apps.items }
    {
        AppList { apps }
    }

    /// The vector of the applications, in their order.
    pub fn into_vec(self) -> Vec<AppId>
        ensures { result.items ≡ self }
    {
        let AppList { apps } = self;
        apps
    }

    /// The applications, in their order.
    pub fn as_slice(&self) -> &[AppId]
        ensures { result.now ≡ self.now }
    {
        self.apps.as_slice()
    }

    /// Whether both lists have the same applications in the same order.
    pub fn equal(&self, other: &Self) -> bool
        ensures { IsTrue result ↔ (self.now ≡ other.now) }
    {
        self.apps.as_slice() == other.apps.as_slice()
    }

    /// An equal list.
    pub fn copy(&self) -> Result<Self, NoMemory>
        ensures { IfOk result (λ copied. copied ≡ self.now) }
    {
        let apps = Vec::from_slice(*self.apps.allocator(), &self.apps)?;
        Ok(AppList { apps })
    }
}
