//! The frames of a source.
ghost use Rattle.std.specs.Prelude.{◌≡◌, [], ◌++◌, ℕ, List, take, drop, length, IfOk, OnOk, OnErr};
ghost use Rattle.std.specs.Io.KnownBytes.{Consumes};
ghost use Rattle.ref_protocol.specs.Frames as spec;
ghost use Rattle.ref_protocol.specs.Feeding.{bytes_left, IsNext, IsFilled};

use crate::frames::{Frame, frame_in};
use ref_streams::Source;
use std::alloc::{AllocError, Global};

// How many bytes are read at once.
const PIECE: usize = 65_536;

/// What is read of a source and isn't taken yet.
#[derive(Drop)]
pub struct Feed {
    /// Room for what a read gives.
    pub piece: Vec<u8>,
    /// What was read last, and what was left before.
    pub bytes: Vec<u8>,
    /// How many of these are taken.
    pub taken: usize,
}

/// What comes next.
#[derive(Drop)]
pub enum Next {
    /// The content of a frame.
    Content(Vec<u8>),
    /// Nothing that is whole yet.
    Wait,
    /// A head that says no length, or one that is too long.
    Broken(&'static str),
}

/// What more was read.
#[derive(Clone, Copy, Debug, Drop, PartialEq, Eq)]
pub enum More {
    /// Some bytes.
    Bytes,
    /// None: the source ends, after a whole frame.
    End,
    /// None: the source ends in a frame.
    Cut,
    /// None: a read failed.
    Failed,
}

impl Feed {
    /// Nothing is read.
    pub fn new(alloc: Global) -> Result<Feed, AllocError>
        ensures empty { IfOk result (λ feed. bytes_left feed ≡ []) }
    {
        let piece = vec![in alloc; 0u8; PIECE]?;
        Ok(Feed {
            piece,
            bytes: Vec::new(alloc),
            taken: 0,
        })
    }

    // What is left.
    fn rest(&self) -> &[u8]
        ensures value { result.now ≡ bytes_left self.now }
    {
        let bytes = self.bytes.as_slice();
        if self.taken <= bytes.len() {
            &bytes[self.taken..]
        } else {
            &[]
        }
    }

    /// What comes next of what is read: the content of the frame that it begins with, which is taken.
    pub fn next(&mut self, alloc: Global) -> Result<Next, AllocError>
        ensures value { IfOk result
            (λ next. IsNext (spec.frame_in (bytes_left self.old)) (bytes_left self.old) next
            (bytes_left self.new)) }
        ensures refused { OnErr result (self.new ≡ self.old) }
    {
        let rest = self.rest();
        match frame_in(rest) {
            Frame::Part => Ok(Next::Wait),
            Frame::NoLength => Ok(Next::Broken("a frame begins with no Content-Length")),
            Frame::TooLong => Ok(Next::Broken("a Content-Length is beyond 256 MB")),
            Frame::Whole(start, end) => {
                let content = Vec::from_slice(alloc, &rest[start..end])?;
                self.taken = self.taken.saturating_add(end);
                Ok(Next::Content(content))
            }
        }
    }

    /// Reads more.
    pub fn fill<R: Source>(&mut self, alloc: Global, source: &mut R) -> Result<More, AllocError>
        ensures value { IfOk result
            (λ more. IsFilled more (R.remaining source.old) (R.remaining source.new)
            (bytes_left self.old) (bytes_left self.new)) }
    {
        self.forget(alloc)?;
        match source.read(self.piece.as_mut_slice()) {
            Ok(0) if self.bytes.is_empty() => Ok(More::End),
            Ok(0) => Ok(More::Cut),
            Ok(count) => {
                self.bytes
                    .extend_from_slice(&self.piece.as_slice()[..count])?;
                Ok(More::Bytes)
            }
            Err(_) => Ok(More::Failed),
        }
    }

    // Forgets what is taken.
    fn forget(&mut self, alloc: Global) -> Result<(), AllocError>
        ensures left { OnOk result (bytes_left self.new ≡ bytes_left self.old) }
        ensures all { OnOk result (self.new.bytes.items ≡ bytes_left self.old) }
        ensures none { OnOk result (self.new.taken ≡ 0) }
    {
        if self.taken == 0 {
            return Ok(());
        }
        let rest = Vec::from_slice(alloc, self.rest())?;
        self.bytes = rest;
        self.taken = 0;
        Ok(())
    }
}
