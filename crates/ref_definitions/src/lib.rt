//! The definitions that the registry and resolver of JSON Schema references are proved to meet, with their laws and rows. It
//! has no call that does anything: read `specs/World.antt`, `specs/Places.antt`, `specs/Resources.antt`,
//! `specs/Preparing.antt`, `specs/Pending.antt`, `specs/Lookup.antt` and `specs/Follow.antt`, in this order.
#![tactic(auto)]

pub mod examples;
pub mod laws;
