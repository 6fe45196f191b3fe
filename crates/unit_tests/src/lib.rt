//! The tests of `ref_uri`, `ref_paths`, `ref_parts`, `ref_draft` and `ref_patterns`: the examples of the standards, and what no
//! clause says.
//!
//! They are in a crate of their own, so that what is proved of those libraries isn't proved once more with them. Rows are in
//! texts, since a row of a text costs no proof.
#![tactic(auto)]

#[cfg(test)]
mod asserts;
#[cfg(test)]
mod children;
#[cfg(test)]
mod drafts;
#[cfg(test)]
mod grammar;
#[cfg(test)]
mod lists;
#[cfg(test)]
mod long_texts;
#[cfg(test)]
mod map_defaults;
#[cfg(test)]
mod maps;
#[cfg(test)]
mod paths;
#[cfg(test)]
mod patterns;
#[cfg(test)]
mod reading;
#[cfg(test)]
mod row;
#[cfg(test)]
mod sorted_tables;
#[cfg(test)]
mod tables;
#[cfg(test)]
mod texts;
#[cfg(test)]
mod uris;
