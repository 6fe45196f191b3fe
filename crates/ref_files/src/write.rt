//! A file that is written whole or not at all.
use std::alloc::AllocError;
use std::fs::{File, Permissions};
use std::io::Write;
use std::{fs, io};

/// Why a file was not written.
#[derive(Drop)]
pub enum WriteError {
    /// Memory ran out.
    Memory,
    /// The file at this path can't be written: by `AlreadyExists` another one is in the way, by `InvalidInput` it is no regular file.
    File {
        /// The path.
        path: String,
        /// What the system says.
        error: io::Error,
    },
}

impl From<AllocError> for WriteError {
    fn from(_error: AllocError) -> WriteError {
        WriteError::Memory
    }
}

/// Writes a file. The text goes to a file beside it, which is then renamed, so that a file that was there stays as it was until
/// then. A link leads to the file that is written.
pub fn write_file(rt: &HostRuntime, path: &str, text: &str) -> Result<(), WriteError> {
    let target = match target_of(rt, path) {
        Ok(target) => target,
        Err(error) => return refused(rt, path, error),
    };
    let beside = format!(in rt.alloc(); "{}.patchsard-new", target.path)?;
    if let Err(error) = write_new(rt, beside.as_str(), text, target.mode) {
        return refused(rt, beside.as_str(), error);
    }
    if let Err(error) = fs::rename(rt, beside.as_str(), target.path.as_str()) {
        let _ = fs::remove_file(rt, beside.as_str());
        return refused(rt, path, error);
    }
    Ok(())
}

// Why a file was not written.
fn refused(rt: &HostRuntime, path: &str, error: io::Error) -> Result<(), WriteError> {
    let path = String::from_str(rt.alloc(), path)?;
    Err(WriteError::File { path, error })
}

// The file that is written.
#[derive(Drop)]
struct Target {
    path: String,
    // Who may read and write it, where it is there.
    mode: Option<Permissions>,
}

// The file at a path, which is a regular one, or isn't there yet.
fn target_of(rt: &HostRuntime, path: &str) -> io::Result<Target> {
    if let Err(error) = fs::symlink_metadata(rt, path) {
        return match error.kind() {
            io::ErrorKind::NotFound => Ok(Target {
                path: String::from_str(rt.alloc(), path)?,
                mode: None,
            }),
            _ => Err(error),
        };
    }
    let real = fs::canonicalize(rt, path)?.into_string();
    let data = fs::metadata(rt, real.as_str())?;
    if !data.is_file() {
        return Err(io::Error::from(io::ErrorKind::InvalidInput));
    }
    Ok(Target {
        path: real,
        mode: Some(data.permissions()),
    })
}

// Writes a file that isn't there yet. Where that fails, none is left.
fn write_new(
    rt: &HostRuntime,
    path: &str,
    text: &str,
    mode: Option<Permissions>,
) -> io::Result<()> {
    let mut file = File::create_new(rt, path)?;
    if let Err(error) = filled(&mut file, text, mode) {
        let _ = fs::remove_file(rt, path);
        return Err(error);
    }
    Ok(())
}

fn filled(file: &mut File, text: &str, mode: Option<Permissions>) -> io::Result<()> {
    if let Some(mode) = mode {
        file.set_permissions(mode)?;
    }
    file.write_all(text.as_bytes())?;
    file.sync_all()
}
