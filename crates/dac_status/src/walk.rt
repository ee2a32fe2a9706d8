//! Permits and start wishes of a state, looked up in the order of their keys.
ghost use Rattle.std.specs.Prelude.{◌≡◌, ◌<◌, Some};
ghost use Rattle.std.specs.List.{list_all};
ghost use Rattle.dac_origins.specs.declared.dot.Dot.{Dot as DotValue};
ghost use Rattle.dac_lattice.specs.declared.flags.Flag.{Flag as FlagValue};
ghost use Rattle.dac_wishes.specs.PermissionsValue.{is_permitting, is_permitted_by};
ghost use Rattle.dac_config.specs.Table.{app_count};
ghost use Rattle.dac_placement.specs.Placement.{is_drained_at, is_permitted_at, is_started_at};
ghost use Rattle.dac_status.specs.Summaries.{mark_at};
ghost use Rattle.dac_status.specs.Walks.{IsBefore, first_key};

use crate::marks::Mark;
use dac_config::Config;
use dac_lattice::Flag;
use dac_origins::Dot;
use dac_state::{Key, State};
use dac_store::{DotFun, DotSet, Entries};
use std::marker::Model;

/// A state, and the rest of its permits and start wishes. Lookups must come in the order of keys; together they pass
/// each entry once, instead of a search at each key.
#[derive(Drop)]
pub(crate) struct Walk<'a> {
    state: &'a State,
    permits: Entries<'a, Key, DotFun<Flag>>,
    starts: Entries<'a, Key, DotSet>,
}

impl<'a> Model for Walk<'a> {
    ghost use Rattle.dac_lattice.specs.Search.{IsInOrder};
    ghost use Rattle.dac_wishes.specs.Keys.{key_cmp};
    ghost use Rattle.dac_status.specs.Walks.{WalkValue, coded_walk};

    ghost Value = { WalkValue };

    ghost coded = { coded_walk };

    ghost view = { λ a. record { state = a.state.now; permits = a.permits; starts = a.starts } };

    ghost invariant = { λ a. IsInOrder key_cmp a.permits × IsInOrder key_cmp a.starts };
}

impl<'a> Walk<'a> {
    /// The walk before all keys.
    pub(crate) fn of(state: &'a State) -> Self
        ensures state { result.state ≡ state.now }
        ensures before { IsBefore (first_key 0 0) result }
    {
        Walk {
            state,
            permits: state.permissions().entries(),
            starts: state.wishes().entries(),
        }
    }

    /// The state that is walked through.
    pub(crate) fn state(&self) -> &'a State
        ensures { result.now ≡ self.now.state }
    {
        self.state
    }

    /// The mark of a live node for an application, given whether it is drained. Entries below the key are passed.
    pub(crate) fn mark(&mut self, config: &Config, key: Key, drained: bool) -> Mark
        requires app { key.app.0 < app_count config.now }
        requires drained { drained ≡ is_drained_at self.old.state key.node key.inc }
        requires before { IsBefore key self.old }
        ensures value { result ≡ mark_at config.now self.old.state key.app key.node (Some key.inc) }
        ensures state { self.new.state ≡ self.old.state }
        ensures before { IsBefore key self.new }
    {
        if !self.is_permitted(config, key) {
            return Mark::Barred;
        }
        if drained {
            return Mark::Drained;
        }
        if !self.is_started(key) {
            return Mark::Idle;
        }
        Mark::Ok
    }

    /// Whether the application is permitted at this incarnation. Permits below the key are passed.
    fn is_permitted(&mut self, config: &Config, key: Key) -> bool
        requires app { key.app.0 < app_count config.now }
        requires before { IsBefore key self.old }
        ensures value { result ≡ is_permitted_at config.now self.old.state key }
        ensures state { self.new.state ≡ self.old.state }
        ensures before { IsBefore key self.new }
    {
        let default = config.default_permission(key.app);
        match self.permits.seek(key) {
            Some(permits) => permitted_by(default, permits.entries()),
            None => default,
        }
    }

    /// Whether a start of the application stands at this incarnation. Start wishes below the key are passed.
    fn is_started(&mut self, key: Key) -> bool
        requires before { IsBefore key self.old }
        ensures value { result ≡ is_started_at self.old.state key }
        ensures state { self.new.state ≡ self.old.state }
        ensures before { IsBefore key self.new }
    {
        self.starts.seek(key).is_some()
    }
}

/// Whether a permit says true.
fn is_permitting(flag: Flag) -> bool
    ensures { result ≡ is_permitting flag }
{
    match flag {
        Flag::Up => true,
        Flag::Down => false,
    }
}

/// Whether each permit says true, or the default if there is none.
fn permitted_by(default: bool, permits: &[(Dot, Flag)]) -> bool
    ensures { result ≡ is_permitted_by default permits.now }
{
    if permits.is_empty() {
        default
    } else {
        all_say_true(permits)
    }
}

/// Whether each permit says true.
fn all_say_true(permits: &[(Dot, Flag)]) -> bool
    ensures { result ≡ list_all (λ (p : DotValue × FlagValue). is_permitting p.1) permits.now }
{
    permits.iter().all(|permit| is_permitting(permit.1))
}
