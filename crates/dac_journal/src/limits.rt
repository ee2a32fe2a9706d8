//! The size limit of a journal.

/// The maximum number of records of a journal.
pub const MAX_RECORDS: usize = 65_536;
