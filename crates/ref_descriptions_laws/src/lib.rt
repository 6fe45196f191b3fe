//! Rows of the definitions of `ref_descriptions`: each field of each table once, which versions and places there are, and what is
//! below literal values and what they refer to.
#![tactic(auto)]

pub mod examples;
