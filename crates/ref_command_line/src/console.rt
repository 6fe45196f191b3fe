//! Standard output, a large piece at a time.
use crate::said::say_of;
use crate::stop::Stop;
use std::alloc::AllocError;
use std::env;
use std::io::Write;

// How many bytes are kept until they are written.
const PIECE: usize = 65536;

/// What is to be printed and isn't yet.
#[derive(Drop)]
pub struct Console<'r> {
    rt: &'r HostRuntime,
    /// The text. [`Console::pass`] writes it where it is long.
    pub out: String,
}

impl<'r> Console<'r> {
    /// Nothing to print.
    pub fn new(rt: &'r HostRuntime) -> Console<'r> {
        Console {
            rt,
            out: String::new(rt.alloc()),
        }
    }

    /// Adds a text. Where nothing is to be printed yet, it isn't copied.
    pub fn put(&mut self, text: String) -> Result<(), AllocError> {
        if self.out.is_empty() {
            self.out = text;
            return Ok(());
        }
        self.out.push_str(text.as_str())
    }

    /// Writes the text where it is long.
    pub fn pass(&mut self) -> Result<(), Stop> {
        if self.out.len() >= PIECE {
            self.finish()?;
        }
        Ok(())
    }

    /// Writes the text.
    pub fn finish(&mut self) -> Result<(), Stop> {
        let mut writer = self.rt.stdout();
        writer.write_all(self.out.as_bytes())?;
        writer.flush()?;
        self.out.clear();
        Ok(())
    }
}

/// Goes to a folder, from which relative paths are read.
pub fn go_to(rt: &HostRuntime, folder: &str) -> Result<(), Stop> {
    match env::set_current_dir(rt, folder) {
        Ok(()) => Ok(()),
        Err(error) => {
            say_of(rt, folder, error);
            Err(Stop::Reported)
        }
    }
}
