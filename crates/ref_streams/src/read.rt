//! All the bytes that a source gives.
ghost use Rattle.std.specs.Prelude.{◌≡◌, Err, IfOk, OnOk, IfErr, ◌⊎◌, ◌≢◌, IsTrue};
ghost use Rattle.std.specs.Io.KnownBytes.{Consumes, IsAtEnd};
ghost use Rattle.ref_streams.specs.Bytes.{HasFailed};

use crate::error::RunError;
use crate::source::Source;
use std::alloc::Global;

const CHUNK: usize = 4096;

/// Reads to the end, and returns all the bytes that were read.
///
/// `Read` exactly where a read failed, after which none is made; `Memory` where a growth of the vector is refused. It ends over every
/// source: each read before the end lengthens the vector. Costs what the reads cost, each into a buffer of 4,096 bytes,
/// and is linear in the bytes else.
pub fn read_to_end<R: Source>(alloc: Global, reader: &mut R) -> Result<Vec<u8>, RunError>
    ensures bytes { IfOk result
        (λ v. Consumes (R.remaining reader.old) (R.remaining reader.new) v.items) }
    ensures end { OnOk result (IsTrue (R.ended reader.new)) }
    ensures rest { OnOk result (IsAtEnd (R.remaining reader.new)) }
    ensures error { IfErr result (λ e. (e ≡ RunError.Read) ⊎ (e ≡ RunError.Memory)) }
    ensures read { result ≡ Err RunError.Read
        → HasFailed (R.failures reader.old) (R.failures reader.new) }
    ensures no_read_failed { result ≢ Err RunError.Read
        → R.failures reader.new ≡ R.failures reader.old }
{
    let mut bytes = Vec::new(alloc);
    let mut buffer = [0u8; CHUNK];
    loop {
        let Ok(n) = reader.read(&mut buffer) else {
            return Err(RunError::Read);
        };
        if n == 0 {
            return Ok(bytes);
        }
        bytes.extend_from_slice(&buffer[..n])?;
    }
}
