//! The order of a place, found plainly by chains of origins, and what is shown and printed.

pub(crate) mod comparison;
pub(crate) mod listing;
pub(crate) mod printing;
