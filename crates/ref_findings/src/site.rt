//! Places with the numbers of their sources.
use crate::place::Place;

/// A place, and the number of its source.
#[derive(Clone, Copy)]
pub(crate) struct Site<'p, 'v> {
    pub source: usize,
    pub place: &'p Place<'v>,
}
