//! What is there for speed alone: it promises what the plain code promises.
pub(crate) mod rows;
