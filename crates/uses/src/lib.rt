//! Uses of `referencing`, as callers write them. Each is proved by the clauses of public calls alone. What they return
//! is shown by rows of the program `tests`.
#![tactic(auto)]

pub mod bookmarks;
pub mod bundler;
pub mod dialect;
pub mod editor;
pub mod faults;
pub mod openapi;
pub mod validator;
