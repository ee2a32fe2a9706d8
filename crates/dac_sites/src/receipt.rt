//! The result of an accepted call of a site.

use crate::blank::SiteName;
use dac_messages::Reply;
use std::marker::PhantomData;

/// The reply to a call, with the place of its record: a session token, by which a reader reads the caller's own write.
#[derive(Drop)]
pub struct Receipt<L: SiteName> {
    /// The place of the call's record in the journal, from 1.
    pub place: u64,
    /// The node's reply.
    pub reply: Reply,
    /// The same place, which the owner can't change, until the first reader learns it.
    pub(crate) note: Option<u64>,
    pub(crate) of: PhantomData<L>,
}
