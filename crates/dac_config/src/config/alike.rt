//! Compares two configurations' lists of an application.
ghost use Rattle.std.specs.Prelude.{◌≡◌, ◌<◌, ◌↔◌, IsTrue, map};
ghost use Rattle.dac_config.specs.Table.{app_count, HaveEqualLists};

use super::Config;
use dac_base::AppId;

impl Config {
    /// Whether both configurations list the same nodes for an application, in the same groups, with the same default
    /// permission. The time grows with the length of the list.
    pub fn lists_alike(&self, other: &Config, app: AppId) -> bool
        requires one { app.0 < app_count self.now }
        requires other { app.0 < app_count other.now }
        ensures { IsTrue result ↔ HaveEqualLists self.now other.now app }
    {
        let (_, one) = self.entry(app);
        let (_, two) = other.entry(app);
        one.permission == two.permission && same_groups(&one.groups, &two.groups)
    }
}

/// Whether both lists have the same groups in the same order.
fn same_groups(one: &[Vec<u8>], two: &[Vec<u8>]) -> bool
    ensures { IsTrue result
        ↔ map (λ group. group.items) one.now ≡ map (λ group. group.items) two.now }
{
    if one.len() != two.len() {
        return false;
    }
    for place in 0..one.len() {
        if !same_numbers(&one[place], &two[place]) {
            return false;
        }
    }
    true
}

/// Whether both groups have the same nodes.
fn same_numbers(one: &[u8], two: &[u8]) -> bool
    ensures { IsTrue result ↔ one.now ≡ two.now }
{
    if one.len() != two.len() {
        return false;
    }
    for place in 0..one.len() {
        if one[place] != two[place] {
            return false;
        }
    }
    true
}
