//! Rows of descriptions. The expected values are those of the specifications, 2.0, 3.0, 3.1 and 3.2.

pub mod below;
pub mod fields;
pub mod references;
pub mod versions;
