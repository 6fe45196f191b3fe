//! Workloads of `ref_parts`: the scan for escapes, a plain one beside it, and look-ups in a sorted table.

use crate::workloads::line::Line;
use ref_parts::{SortedTable, first_escape};
use std::alloc::{AllocError, Global};

/// How many URIs are looked up in turn.
const KEYS: usize = 64;

/// A URI of a number, with a beginning that all of them share.
fn uri_of(alloc: Global, number: usize) -> Result<String, AllocError> {
    format!(in alloc;
        "https://example.com/schemas/a/long/beginning/that/all/of/them/share/{number:06}"
    )
}

/// A table of so many URIs, each with its number.
fn table_of(alloc: Global, size: usize) -> Result<SortedTable<usize>, AllocError> {
    let mut entries = Vec::with_capacity(alloc, size)?;
    for number in 0..size {
        entries.push((uri_of(alloc, number)?, String::new(alloc), number))?;
    }
    SortedTable::from_entries(alloc, entries)
}

/// A number below the size, far from those of the keys before it.
fn spread(key: usize, size: usize) -> usize {
    key.wrapping_mul(7_919).checked_rem(size).unwrap_or(0)
}

/// How many probes so many look-ups take together.
fn probes(alloc: Global, size: usize, times: u32) -> Result<u64, AllocError> {
    let table = table_of(alloc, size)?;
    let mut keys = Vec::with_capacity(alloc, KEYS)?;
    for key in 0..KEYS {
        keys.push(uri_of(alloc, spread(key, size))?)?;
    }
    let mut sum: u64 = 0;
    for turn in 0..times {
        if let Some(key) = keys.get(turn as usize % KEYS) {
            let (_, probes) = table.get(key.as_str(), "");
            sum = sum.saturating_add(probes as u64);
        }
    }
    Ok(sum)
}

/// Where the first escape is, byte by byte.
fn plain_scan(bytes: &[u8]) -> Option<usize> {
    bytes.iter().position(|byte| *byte == b'~' || *byte == b'/')
}

/// How far so many scans of a text without an escape go together, by words or byte by byte.
fn scanned(alloc: Global, by_words: bool, size: usize, times: u32) -> Result<u64, AllocError> {
    let text = vec![in alloc; b'a'; size]?;
    let mut sum: u64 = 0;
    for _ in 0..times {
        let found = if by_words {
            first_escape(text.as_slice())
        } else {
            plain_scan(text.as_slice())
        };
        sum = sum.saturating_add(found.unwrap_or(text.len()) as u64);
    }
    Ok(sum)
}

/// What a line's workload returns; nothing where memory is refused.
pub fn answer(alloc: Global, line: Line<'_>) -> Option<u64> {
    let sum = match line.call {
        "get" => probes(alloc, line.size, line.times),
        "scan" => scanned(alloc, true, line.size, line.times),
        _ => scanned(alloc, false, line.size, line.times),
    };
    sum.ok()
}
