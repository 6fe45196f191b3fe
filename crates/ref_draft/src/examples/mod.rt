//! Rows of schemas, computed from the definitions: the expected values are those of the drafts' tables.

pub mod anchors;
pub mod children;
pub mod keywords;
pub mod meta_schemas;
pub mod scan;
pub mod schemas;
pub mod views;
