//! Files that are read one after another.
use std::alloc::Global;
use std::fs::File;
use std::io;
use std::io::{ErrorKind, Read};

// How much room a buffer has at first.
const ROOM: usize = 65_536;

/// Room for the bytes of one file, which is kept for the next one.
#[derive(Drop)]
pub struct Buffer {
    bytes: Vec<u8>,
}

impl Buffer {
    /// No room yet.
    pub fn new(alloc: Global) -> Buffer {
        Buffer {
            bytes: Vec::new(alloc),
        }
    }

    /// The bytes of a file.
    pub fn read(&mut self, rt: &HostRuntime, path: &str) -> io::Result<&[u8]> {
        let mut file = File::open(rt, path)?;
        self.fill(&mut file)
    }

    /// The bytes of standard input.
    pub fn read_input(&mut self, rt: &HostRuntime) -> io::Result<&[u8]> {
        let mut input = rt.stdin();
        self.fill(&mut input)
    }

    // The bytes of a reader.
    fn fill<R: Read>(&mut self, reader: &mut R) -> io::Result<&[u8]> {
        let mut end: usize = 0;
        for _ in 0..u64::MAX {
            self.make_room(end)?;
            let room = self.bytes.as_mut_slice();
            if end >= room.len() {
                break;
            }
            match reader.read(&mut room[end..]) {
                Ok(0) => break,
                Ok(count) => end = end.saturating_add(count),
                Err(error) if error.kind() == ErrorKind::Interrupted => {}
                Err(error) => return Err(error),
            }
        }
        Ok(self.bytes.as_slice().get(..end).unwrap_or(&[]))
    }

    // Makes the buffer longer than its first bytes that are in use.
    fn make_room(&mut self, end: usize) -> io::Result<()> {
        if end >= self.bytes.len() {
            self.bytes.resize(end.saturating_mul(2).max(ROOM), 0)?;
        }
        Ok(())
    }
}
