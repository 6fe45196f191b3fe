//! What may be meant by a name that isn't there.
ghost use Rattle.std.specs.Prelude.{◌≡◌, ◌&&◌, ◌-◌, if◌then◌else◌, nat_le};

use std::alloc::{AllocError, Global};
use strsim::levenshtein;

// How many edits a suggestion may be away.
const MOST_EDITS: usize = 2;

// How many bytes a name may have that is compared.
const MOST_BYTES: usize = 64;

// How many steps one search takes at most.
const STEPS_OF_A_SEARCH: usize = 65_536;

// How many steps a comparison counts as.
const STEPS_OF_A_COMPARISON: usize = 16;

/// Searches for names that are one or two letters away from another. A name that is passed is a step, and one that is
/// compared 16. A search takes 65,536 steps at most, and all searches together a number that is given, so that many
/// searches among many names cost no more than that: what is not reached by then is not suggested.
#[derive(Drop)]
pub struct Suggester {
    // How many steps all searches may take yet, and this one.
    left: usize,
    left_here: usize,
}

impl Suggester {
    /// One whose searches take at most so many steps in all.
    pub fn new(steps: usize) -> Suggester
        ensures left { result.left ≡ steps }
        ensures left_here { result.left_here ≡ 0 }
    {
        Suggester {
            left: steps,
            left_here: 0,
        }
    }

    /// Begins another search.
    pub fn begin(&mut self)
        ensures left { self.new.left ≡ self.old.left }
        ensures left_here { self.new.left_here ≡ 65536 }
    {
        self.left_here = STEPS_OF_A_SEARCH;
    }

    /// Counts a step, and says whether the search may take it.
    pub fn step(&mut self) -> bool
        ensures value { result ≡ (nat_le 1 self.old.left && nat_le 1 self.old.left_here) }
        ensures left { self.new.left ≡ (if result then self.old.left - 1 else self.old.left) }
        ensures left_here { self.new.left_here
            ≡ (if result then self.old.left_here - 1 else self.old.left_here) }
    {
        self.take(1)
    }

    /// How many edits a name is away from what is wanted: one or two. Nothing where it is more, or where the search is
    /// at its end.
    pub fn distance(
        &mut self,
        alloc: Global,
        wanted: &str,
        name: &str,
    ) -> Result<Option<usize>, AllocError> {
        if !may_be_close(wanted, name) || !self.take(STEPS_OF_A_COMPARISON) {
            return Ok(None);
        }
        let edits = levenshtein(alloc, wanted, name)?;
        if edits == 0 || edits > MOST_EDITS {
            return Ok(None);
        }
        Ok(Some(edits))
    }

    fn take(&mut self, steps: usize) -> bool
        ensures value { result ≡ (nat_le steps self.old.left && nat_le steps self.old.left_here) }
        ensures left { self.new.left ≡ (if result then self.old.left - steps else self.old.left) }
        ensures left_here { self.new.left_here
            ≡ (if result then self.old.left_here - steps else self.old.left_here) }
    {
        let (Some(left), Some(left_here)) = (
            self.left.checked_sub(steps),
            self.left_here.checked_sub(steps),
        ) else {
            return false;
        };
        self.left = left;
        self.left_here = left_here;
        true
    }
}

// Whether two names may be few edits away, by their lengths. One of one or two letters is close to any other.
fn may_be_close(wanted: &str, name: &str) -> bool {
    let (a, b) = (wanted.len(), name.len());
    a > MOST_EDITS && a <= MOST_BYTES && b <= MOST_BYTES && a.abs_diff(b) <= 4 * MOST_EDITS
}
