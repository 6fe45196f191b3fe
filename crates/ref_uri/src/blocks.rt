//! Looking for a byte sixteen bytes at a time.
ghost use Rattle.std.specs.Prelude.{◌≡◌, ◌≢◌, ◌≤◌, ◌<◌, ◌+◌, ℕ, IsFalse, slice_index, length};

use std::simd::prelude::*;

/// How many bytes are looked at together.
pub const BLOCK: usize = 16;

// Half as many.
const HALF: usize = 8;

/// Whether the byte is in a block.
#[inline(always)]
pub fn block_holds(bytes: &[u8], at: usize, byte: u8) -> bool
    requires { at + BLOCK ≤ length bytes.now }
    ensures { IsFalse result → (k : ℕ) → at ≤ k → k < at + BLOCK → slice_index bytes.now k ≢ byte }
{
    let block = u8x16::from_slice(&bytes[at..]);
    block.simd_eq(u8x16::splat(byte)).to_bitmask() != 0
}

/// Whether the byte is in a text.
#[inline]
pub fn holds(bytes: &[u8], byte: u8) -> bool
    ensures { IsFalse result → (k : ℕ) → k < length bytes.now → slice_index bytes.now k ≢ byte }
{
    let mut at = 0;
    'loads: while bytes.len() - at >= BLOCK {
        if block_holds(bytes, at, byte) {
            return true;
        }
        at += BLOCK;
    }
    for last in at..bytes.len() {
        if bytes[last] == byte {
            return true;
        }
    }
    false
}

/// The same, in few steps where the byte is most often not there: the last block may overlap the one before it.
#[inline(always)]
pub fn may_hold(bytes: &[u8], byte: u8) -> bool
    ensures { IsFalse result → (k : ℕ) → k < length bytes.now → slice_index bytes.now k ≢ byte }
{
    if bytes.len() < BLOCK {
        return short_holds(bytes, byte);
    }
    let last = bytes.len() - BLOCK;
    let mut at = 0;
    while at < last {
        if block_holds(bytes, at, byte) {
            return true;
        }
        at += BLOCK;
    }
    block_holds(bytes, last, byte)
}

// The same for a text of less than a block: by two halves, which may overlap, where it is as long as one, and else byte by byte.
#[inline(always)]
fn short_holds(bytes: &[u8], byte: u8) -> bool
    requires { length bytes.now < BLOCK }
    ensures { IsFalse result → (k : ℕ) → k < length bytes.now → slice_index bytes.now k ≢ byte }
{
    if bytes.len() < HALF {
        return few_hold(bytes, byte);
    }
    if half_holds(bytes, 0, byte) {
        return true;
    }
    half_holds(bytes, bytes.len() - HALF, byte)
}

// The same, byte by byte.
#[inline(always)]
fn few_hold(bytes: &[u8], byte: u8) -> bool
    ensures { IsFalse result → (k : ℕ) → k < length bytes.now → slice_index bytes.now k ≢ byte }
{
    for at in 0..bytes.len() {
        if bytes[at] == byte {
            return true;
        }
    }
    false
}

// Whether the byte is in half a block.
#[inline(always)]
fn half_holds(bytes: &[u8], at: usize, byte: u8) -> bool
    requires { at + HALF ≤ length bytes.now }
    ensures { IsFalse result → (k : ℕ) → at ≤ k → k < at + HALF → slice_index bytes.now k ≢ byte }
{
    let half = u8x8::from_slice(&bytes[at..]);
    half.simd_eq(u8x8::splat(byte)).to_bitmask() != 0
}

/// Where the byte first is from a place on, or the length.
#[inline]
pub fn first_from(bytes: &[u8], from: usize, byte: u8) -> usize
    requires { from ≤ length bytes.now }
    ensures from { from ≤ result }
    ensures within { result ≤ length bytes.now }
    ensures none { (k : ℕ) → from ≤ k → k < result → slice_index bytes.now k ≢ byte }
    ensures found { result < length bytes.now → slice_index bytes.now result ≡ byte }
{
    let mut at = from;
    'loads: while bytes.len() - at >= BLOCK && !block_holds(bytes, at, byte) {
        at += BLOCK;
    }
    while at < bytes.len() && bytes[at] != byte {
        at += 1;
    }
    at
}
