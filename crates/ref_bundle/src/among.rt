//! What a bundle is made among.
use crate::embedding::Part;
use crate::own::{Own, Spot};
use crate::tables::Bearers;

/// A registry's own documents with their tables, their further places, which of them are needed, the root, and those that are embedded.
#[derive(Clone, Copy, Drop)]
pub(crate) struct Among<'m, 'r, 'a> {
    pub bearers: &'m Bearers<'r, 'a>,
    pub owns: &'m [Own<'r>],
    pub further: &'m [Vec<Spot<'r>>],
    pub needed: &'m [bool],
    pub top: &'m Part<'r>,
    pub parts: &'m [Part<'r>],
}
