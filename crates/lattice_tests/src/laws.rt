//! The laws, which are contracts of empty functions.
use dac_chains::Lives;
use dac_deltas::laws::{acks_are_greatest, buffers_keep_logs};
use dac_lattice::Max;
use dac_lattice::pieces::laws_of_pieces;
use dac_meaning::laws;

#[test]
fn laws_of_generic_types_hold() {
    laws_of_pieces::<Lives>();
    buffers_keep_logs::<Max<u64>>();
}

#[test]
fn laws_of_acknowledgements_hold() {
    acks_are_greatest();
}

#[test]
fn laws_of_meanings_hold() {
    laws::parts_of_meaning();
    laws::keys_of_meaning();
    laws::order_and_repeats();
    laws::join_of_meanings();
}

#[test]
fn laws_of_parts_hold() {
    laws::delta_is_meaning();
    laws::pieces_are_parts();
    laws::order_of_states();
}
