//! Whether a path is what a pattern says.
ghost use Rattle.std.specs.Prelude.{◌≡◌, ◌<◌, ◌+◌, ◌-◌, ◌^◌, ◌==◌, ◌&&◌, ◌||◌, [], ◌∷◌, ◌++◌, List, IfOk, OnOk, get_or, false, not, if◌then◌else◌};
ghost use Rattle.ref_patterns.specs.declared.pattern.Part.{Part};
ghost use Rattle.ref_patterns.specs.declared.pattern.Part.TheVariants as part;
ghost use Rattle.ref_patterns.specs.Patterns.{goes_on, matches};
ghost use Rattle.ref_patterns.specs.inner.Ends.{AreOf};

use crate::pattern::Part;
use std::alloc::{AllocError, Global};

// The ends of a path, by how many bytes they have, from none to all: whether what is left of a pattern matches each.
#[derive(Drop)]
struct Ends {
    are_matched: Vec<bool>,
}

/// Whether the parts of a pattern match a path. Some steps for each part and byte. Fails only if out of memory.
pub(crate) fn is_matched(alloc: Global, parts: &[Part], path: &[u8]) -> Result<bool, AllocError>
    ensures value { IfOk result (λ found. found ≡ matches parts.now path.now) }
{
    let mut ends = of_nothing(alloc, path)?;
    for number in 0..parts.len() {
        ends = ends.with_part(alloc, parts[parts.len() - 1 - number], path)?;
    }
    Ok(ends.has(path.len()))
}

// The ends that a pattern without parts matches: the empty one.
fn of_nothing(alloc: Global, path: &[u8]) -> Result<Ends, AllocError>
    ensures value { IfOk result (λ ends. AreOf [] path.now ends.are_matched.items) }
{
    let mut ends = Ends::new(alloc, path)?;
    ends.push(true)?;
    for bytes in 0..path.len() {
        ends.push(false)?;
    }
    Ok(ends)
}

impl Ends {
    fn new(alloc: Global, path: &[u8]) -> Result<Ends, AllocError>
        ensures value { IfOk result (λ ends. ends.are_matched.items ≡ []) }
    {
        Ok(Ends {
            are_matched: Vec::with_capacity(alloc, path.len().saturating_add(1))?,
        })
    }

    // Whether the end with so many bytes is matched.
    fn has(&self, bytes: usize) -> bool
        ensures value { result ≡ get_or self.now.are_matched.items bytes false }
    {
        match self.are_matched.get(bytes) {
            Some(is_matched) => *is_matched,
            None => false,
        }
    }

    fn push(&mut self, is_matched: bool) -> Result<(), AllocError>
        ensures value { OnOk result
            (self.new.are_matched.items ≡ self.old.are_matched.items ++ is_matched ∷ []) }
    {
        self.are_matched.push(is_matched)?;
        Ok(())
    }

    // The ends that are matched with a part more before what is left of the pattern.
    fn with_part(&self, alloc: Global, part: Part, path: &[u8]) -> Result<Ends, AllocError>
        ensures value { (p : List Part) → AreOf p path.now self.now.are_matched.items
            → IfOk result (λ ends. AreOf (part ∷ p) path.now ends.are_matched.items) }
    {
        match part {
            Part::Byte(byte) => self.with_byte(alloc, byte, path),
            Part::Character => self.with_character(alloc, path),
            Part::Name => self.with_name(alloc, path),
            Part::Folders => self.with_folders(alloc, path),
        }
    }

    fn with_byte(&self, alloc: Global, byte: u8, path: &[u8]) -> Result<Ends, AllocError>
        ensures value { (p : List Part) → AreOf p path.now self.now.are_matched.items
            → IfOk result (λ ends. AreOf (part.Byte byte ∷ p) path.now ends.are_matched.items) }
    {
        let mut ends = Ends::new(alloc, path)?;
        ends.push(false)?;
        for bytes in 0..path.len() {
            let first = path[path.len() - 1 - bytes];
            let is_matched = self.is_byte(first, byte, bytes);
            ends.push(is_matched)?;
        }
        Ok(ends)
    }

    // Whether a byte is another one, and the end after it is matched.
    fn is_byte(&self, first: u8, byte: u8, bytes: usize) -> bool
        ensures value { result
            ≡ ((first == byte) && get_or self.now.are_matched.items bytes false) }
    {
        first == byte && self.has(bytes)
    }

    fn with_character(&self, alloc: Global, path: &[u8]) -> Result<Ends, AllocError>
        ensures value { (p : List Part) → AreOf p path.now self.now.are_matched.items
            → IfOk result (λ ends. AreOf (part.Character ∷ p) path.now ends.are_matched.items) }
    {
        let mut ends = Ends::new(alloc, path)?;
        ends.push(false)?;
        // How many bytes the end has after those that go on with a character.
        let mut after: usize = 0;
        for bytes in 0..path.len() {
            let first = path[path.len() - 1 - bytes];
            let is_matched = self.is_in_name(first, after);
            ends.push(is_matched)?;
            after = after_character(first, bytes, after);
        }
        Ok(ends)
    }

    // Whether a byte is no slash, and an end is matched.
    fn is_in_name(&self, first: u8, bytes: usize) -> bool
        ensures value { result
            ≡ (not (first == 47) && get_or self.now.are_matched.items bytes false) }
    {
        first != b'/' && self.has(bytes)
    }

    fn with_name(&self, alloc: Global, path: &[u8]) -> Result<Ends, AllocError>
        ensures value { (p : List Part) → AreOf p path.now self.now.are_matched.items
            → IfOk result (λ ends. AreOf (part.Name ∷ p) path.now ends.are_matched.items) }
    {
        let mut ends = Ends::new(alloc, path)?;
        let mut is_within = self.has(0);
        ends.push(is_within)?;
        for bytes in 0..path.len() {
            let first = path[path.len() - 1 - bytes];
            is_within = self.is_within(first, bytes + 1, is_within);
            ends.push(is_within)?;
        }
        Ok(ends)
    }

    // Whether an end is matched, or begins with no slash and is so after it.
    fn is_within(&self, first: u8, bytes: usize, is_within: bool) -> bool
        ensures value { result
            ≡ (get_or self.now.are_matched.items bytes false
            || (not (first == 47) && is_within)) }
    {
        self.has(bytes) || first != b'/' && is_within
    }

    fn with_folders(&self, alloc: Global, path: &[u8]) -> Result<Ends, AllocError>
        ensures value { (p : List Part) → AreOf p path.now self.now.are_matched.items
            → IfOk result (λ ends. AreOf (part.Folders ∷ p) path.now ends.are_matched.items) }
    {
        let mut ends = Ends::new(alloc, path)?;
        let mut is_after = false;
        ends.push(self.has(0))?;
        for bytes in 0..path.len() {
            let first = path[path.len() - 1 - bytes];
            is_after = self.is_after(first, bytes, is_after);
            let is_matched = self.has_or(bytes + 1, is_after);
            ends.push(is_matched)?;
        }
        Ok(ends)
    }

    // Whether an end is matched, or something else holds.
    fn has_or(&self, bytes: usize, other: bool) -> bool
        ensures value { result ≡ (get_or self.now.are_matched.items bytes false || other) }
    {
        self.has(bytes) || other
    }

    // Whether what is after some slash of an end is matched.
    fn is_after(&self, first: u8, bytes: usize, is_after: bool) -> bool
        ensures value { result
            ≡ (((first == 47) && get_or self.now.are_matched.items bytes false) || is_after) }
    {
        first == b'/' && self.has(bytes) || is_after
    }
}

// How many bytes an end has after those that go on with a character, which begins with a byte, and after it has some bytes, and after those that go on as many.
fn after_character(first: u8, bytes: usize, after: usize) -> usize
    requires { bytes < 2 ^ 64 - 1 }
    ensures value { result ≡ (if goes_on first then after else bytes + 1) }
{
    if goes_on(first) { after } else { bytes + 1 }
}

// Whether a byte goes on with a character (RFC 3629, 3).
fn goes_on(byte: u8) -> bool
    ensures value { result ≡ goes_on byte }
{
    128 <= byte && byte < 192
}
