//! Rows that compute: each function is empty, and its contract states them.

pub mod views;
pub mod vocabularies;
