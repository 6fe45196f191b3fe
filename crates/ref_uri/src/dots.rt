//! The removal of dot segments while a path is written (RFC 3986, 5.2.4).
ghost use Rattle.std.specs.Prelude.{◌≡◌, ◌≢◌, IsFalse, slice_index, ◌≤◌, ◌++◌, List, [], ℕ, true, map, length, slice_range, take, drop, ◌<◌, ◌+◌, string_bytes, IfOk, OnOk, IsAscii, ◌∷◌, ◌==◌};
ghost use Rattle.std.specs.List.{before_last};
ghost use Rattle.ref_uri.specs.Characters.{has_whole_triples};
ghost use Rattle.ref_uri.specs.DotSegments.{segments, remove_dot_segments};
ghost use Rattle.ref_uri.specs.inner.Target.{LacksEncodedDot};
ghost use Rattle.ref_uri.specs.inner.Written.{written_text};
ghost use Rattle.ref_uri.specs.inner.Removal.{segment_of, first_written, first_progress, next_written, next_progress, slash_of, path_then, progress_then, path_after, progress_after, end_of, ended_path, dots_after, last_taken, AreNames, IsInside, IsNoEncodedDot};
ghost use Rattle.ref_uri.specs.Bytes.{slash};

use crate::blocks::{BLOCK, block_holds};
use crate::lengths::{head, tail};
use crate::written::{Form, index_of};
use std::alloc::AllocError;
use std::simd::prelude::*;

/// How far a path is written after a buffer's text.
#[derive(Clone, Copy)]
pub enum Progress {
    /// Only dot segments came, and nothing is written.
    Front,
    /// The last segment was no dot segment.
    Within,
    /// The last segment was a dot segment, after others: the path ends in a slash if no other comes.
    Dots,
}

/// What a segment asks of the path.
#[derive(Clone, Copy)]
pub enum Segment {
    /// To be in it.
    Name,
    /// `.`: nothing.
    Dot,
    /// `..`: to take away the segment to its left.
    DotDot,
}

/// Whether a segment that begins in this part of the path begins with a dot.
#[inline(always)]
fn dot_begins_segment(bytes: &[u8], from: usize, to: usize) -> bool
    requires { to ≤ length bytes.now }
    ensures { IsFalse result → (k : ℕ) → from ≤ k → k < to → IsInside bytes.now k }
{
    for at in from..to {
        if bytes[at] == b'.' && (at == 0 || bytes[at - 1] == b'/') {
            return true;
        }
    }
    false
}

/// Whether a segment of the path may be a dot segment: none is, where none begins with a dot.
pub fn may_hold_dots(bytes: &[u8]) -> bool
    ensures { IsFalse result → AreNames (segments bytes.now) }
{
    let mut at = 0;
    while bytes.len() - at >= BLOCK {
        if block_holds(bytes, at, b'.') && dot_begins_segment(bytes, at, at + BLOCK) {
            return true;
        }
        at += BLOCK;
    }
    dot_begins_segment(bytes, at, bytes.len())
}

/// Whether a triple of `.` begins in a block.
#[inline(always)]
fn block_holds_encoded_dot(bytes: &[u8], at: usize) -> bool
    requires { at + BLOCK + 2 ≤ length bytes.now }
    ensures { IsFalse result → (k : ℕ) → at ≤ k → k < at + BLOCK → IsNoEncodedDot bytes.now k }
{
    let percents = u8x16::from_slice(&bytes[at..]).simd_eq(u8x16::splat(b'%'));
    let twos = u8x16::from_slice(&bytes[at + 1..]).simd_eq(u8x16::splat(b'2'));
    let letters = u8x16::from_slice(&bytes[at + 2..]) | u8x16::splat(32);
    (percents & twos & letters.simd_eq(u8x16::splat(b'e'))).to_bitmask() != 0
}

/// Whether a triple of `.` may be in a text: none does, where this is false.
pub fn may_hold_encoded_dot(bytes: &[u8]) -> bool
    ensures { IsFalse result → LacksEncodedDot bytes.now }
{
    let mut at = 0;
    'loads: while bytes.len() - at >= BLOCK + 2 {
        if block_holds_encoded_dot(bytes, at) {
            return true;
        }
        at += BLOCK;
    }
    while bytes.len() - at > 2 {
        if bytes[at] == b'%' && bytes[at + 1] == b'2' && matches!(bytes[at + 2], b'e' | b'E') {
            return true;
        }
        at += 1;
    }
    false
}

fn segment_of(text: &str) -> Segment
    ensures { result ≡ segment_of text.now }
{
    match text {
        "." => Segment::Dot,
        ".." => Segment::DotDot,
        _ => Segment::Name,
    }
}

/// Where what is before the last slash of the path that begins at `start` ends.
fn end_of_rest(bytes: &[u8], start: usize) -> usize
    requires { start ≤ length bytes.now }
    ensures value { take result bytes.now
        ≡ take start bytes.now ++ before_last (λ c. c == slash) (drop start bytes.now) }
    ensures from { start ≤ result }
    ensures within { result ≤ length bytes.now }
{
    let mut end = bytes.len();
    while end > start {
        end -= 1;
        if bytes[end] == b'/' {
            return end;
        }
    }
    start
}

/// Takes away the last segment of the path that begins at `start`, with the slash before it.
fn take_last(buffer: &mut String, start: usize)
    requires ascii { IsAscii (string_bytes buffer.old) }
    requires within { start ≤ length (string_bytes buffer.old) }
    ensures text { (before path : List ℕ) → string_bytes buffer.old ≡ before ++ path
        → length before ≡ start
        → string_bytes buffer.new ≡ before ++ before_last (λ c. c == slash) path }
    ensures ascii { IsAscii (string_bytes buffer.new) }
    ensures start { start ≤ length (string_bytes buffer.new) }
{
    let end = end_of_rest(buffer.as_bytes(), start);
    buffer.truncate(end);
}

/// Lets the segment that was appended at `end` be a path's first one, or takes a dot segment away.
fn settle_first(buffer: &mut String, end: usize) -> Progress
    requires buffer_ascii { IsAscii (string_bytes buffer.old) }
    requires within { end ≤ length (string_bytes buffer.old) }
    ensures text { (path segment : List ℕ) → string_bytes buffer.old ≡ path ++ segment
        → length path ≡ end
        → string_bytes buffer.new ≡ first_written (segment_of segment) path segment }
    ensures progress { (path segment : List ℕ) → string_bytes buffer.old ≡ path ++ segment
        → length path ≡ end → result ≡ first_progress (segment_of segment) }
    ensures ascii { IsAscii (string_bytes buffer.new) }
    ensures longer { end ≤ length (string_bytes buffer.new) }
{
    match segment_of(&buffer[end..]) {
        Segment::Name => Progress::Within,
        Segment::Dot | Segment::DotDot => {
            buffer.truncate(end);
            Progress::Front
        }
    }
}

/// Lets the segment that was appended at `end`, with the slash before it, stay in the path that begins at `start`, or
/// takes a dot segment away: then the path is as it asks.
fn settle_next(buffer: &mut String, start: usize, end: usize) -> Progress
    requires buffer_ascii { IsAscii (string_bytes buffer.old) }
    requires start_within { start ≤ end }
    requires within { end < length (string_bytes buffer.old) }
    ensures text { (before path segment : List ℕ)
        → string_bytes buffer.old ≡ (before ++ path) ++ slash ∷ segment → length before ≡ start
        → length (before ++ path) ≡ end
        → string_bytes buffer.new ≡ before ++ next_written (segment_of segment) path segment }
    ensures progress { (path segment : List ℕ) → string_bytes buffer.old ≡ path ++ slash ∷ segment
        → length path ≡ end → result ≡ next_progress (segment_of segment) }
    ensures ascii { IsAscii (string_bytes buffer.new) }
    ensures start { start ≤ length (string_bytes buffer.new) }
{
    match segment_of(&buffer[end + 1..]) {
        Segment::Name => Progress::Within,
        Segment::Dot => {
            buffer.truncate(end);
            Progress::Dots
        }
        Segment::DotDot => {
            buffer.truncate(end);
            take_last(buffer, start);
            Progress::Dots
        }
    }
}

/// Appends the slash before a segment, unless the segment is a path's first one.
fn push_slash(buffer: &mut String, progress: Progress) -> Result<(), AllocError>
    ensures text { OnOk result
        (string_bytes buffer.new ≡ string_bytes buffer.old ++ slash_of progress) }
    ensures ascii { OnOk result
        (IsAscii (string_bytes buffer.old) → IsAscii (string_bytes buffer.new)) }
{
    match progress {
        Progress::Front => Ok(()),
        Progress::Within | Progress::Dots => buffer.push_str("/"),
    }
}

/// What becomes of the path that begins at `start`, when a segment was appended at `end`, with a slash or as the first.
fn settle(buffer: &mut String, start: usize, progress: Progress, end: usize) -> Progress
    requires buffer_ascii { IsAscii (string_bytes buffer.old) }
    requires start_within { start ≤ end }
    requires within { end + length (slash_of progress) ≤ length (string_bytes buffer.old) }
    ensures text { (before path segment : List ℕ)
        → string_bytes buffer.old ≡ (before ++ path) ++ (slash_of progress ++ segment)
        → length before ≡ start → length (before ++ path) ≡ end
        → string_bytes buffer.new ≡ before ++ path_then progress path segment }
    ensures progress { (path segment : List ℕ)
        → string_bytes buffer.old ≡ path ++ (slash_of progress ++ segment) → length path ≡ end
        → result ≡ progress_then progress segment }
    ensures ascii { IsAscii (string_bytes buffer.new) }
    ensures start { start ≤ length (string_bytes buffer.new) }
{
    match progress {
        Progress::Front => settle_first(buffer, end),
        Progress::Within => settle_next(buffer, start, end),
        Progress::Dots => settle_next(buffer, start, end),
    }
}

/// How far a path is after a dot segment.
fn after_dots(progress: Progress) -> Progress
    ensures { result ≡ dots_after progress }
{
    match progress {
        Progress::Front => Progress::Front,
        Progress::Within | Progress::Dots => Progress::Dots,
    }
}

/// Takes away the last segment of the path that begins at `start`, unless no other precedes it.
fn take_last_after(buffer: &mut String, start: usize, progress: Progress)
    requires ascii { IsAscii (string_bytes buffer.old) }
    requires within { start ≤ length (string_bytes buffer.old) }
    ensures text { (before path : List ℕ) → string_bytes buffer.old ≡ before ++ path
        → length before ≡ start → string_bytes buffer.new ≡ before ++ last_taken progress path }
    ensures ascii { IsAscii (string_bytes buffer.new) }
    ensures start { start ≤ length (string_bytes buffer.new) }
{
    match progress {
        Progress::Front => {}
        Progress::Within | Progress::Dots => take_last(buffer, start),
    }
}

/// Writes one more segment of the path that begins at `start`, as it is given.
#[inline(always)]
fn push_given_segment(
    buffer: &mut String,
    start: usize,
    progress: Progress,
    segment: &str,
) -> Result<Progress, AllocError>
    requires buffer_ascii { IsAscii (string_bytes buffer.old) }
    requires within { start ≤ length (string_bytes buffer.old) }
    requires ascii { IsAscii segment.now }
    ensures text { (before path : List ℕ) → string_bytes buffer.old ≡ before ++ path
        → length before ≡ start
        → OnOk result (string_bytes buffer.new ≡ before ++ path_then progress path segment.now) }
    ensures progress { IfOk result (λ p. p ≡ progress_then progress segment.now) }
    ensures ascii { OnOk result (IsAscii (string_bytes buffer.new)) }
    ensures start { OnOk result (start ≤ length (string_bytes buffer.new)) }
{
    match segment_of(segment) {
        Segment::Name => push_names(buffer, progress, segment),
        Segment::Dot => Ok(after_dots(progress)),
        Segment::DotDot => {
            take_last_after(buffer, start, progress);
            Ok(after_dots(progress))
        }
    }
}

/// Writes one more segment of the path that begins at `start`, in normal form.
fn push_normal_segment(
    buffer: &mut String,
    start: usize,
    progress: Progress,
    segment: &str,
    form: Form,
) -> Result<Progress, AllocError>
    requires buffer_ascii { IsAscii (string_bytes buffer.old) }
    requires within { start ≤ length (string_bytes buffer.old) }
    requires ascii { IsAscii segment.now }
    requires triples { has_whole_triples segment.now ≡ true }
    ensures text { (before path : List ℕ) → string_bytes buffer.old ≡ before ++ path
        → length before ≡ start
        → OnOk result
        (string_bytes buffer.new
        ≡ before ++ path_then progress path (written_text form segment.now)) }
    ensures progress { IfOk result
        (λ p. p ≡ progress_then progress (written_text form segment.now)) }
    ensures ascii { OnOk result (IsAscii (string_bytes buffer.new)) }
    ensures start { OnOk result (start ≤ length (string_bytes buffer.new)) }
{
    let end = buffer.len();
    push_slash(buffer, progress)?;
    form.push(buffer, segment)?;
    Ok(settle(buffer, start, progress, end))
}

/// Writes one more segment of the path that begins at `start`.
#[inline(always)]
fn push_segment(
    buffer: &mut String,
    start: usize,
    progress: Progress,
    segment: &str,
    form: Form,
) -> Result<Progress, AllocError>
    requires buffer_ascii { IsAscii (string_bytes buffer.old) }
    requires within { start ≤ length (string_bytes buffer.old) }
    requires ascii { IsAscii segment.now }
    requires triples { has_whole_triples segment.now ≡ true }
    ensures text { (before path : List ℕ) → string_bytes buffer.old ≡ before ++ path
        → length before ≡ start
        → OnOk result
        (string_bytes buffer.new
        ≡ before ++ path_then progress path (written_text form segment.now)) }
    ensures progress { IfOk result
        (λ p. p ≡ progress_then progress (written_text form segment.now)) }
    ensures ascii { OnOk result (IsAscii (string_bytes buffer.new)) }
    ensures start { OnOk result (start ≤ length (string_bytes buffer.new)) }
{
    match form {
        Form::Given => push_given_segment(buffer, start, progress, segment),
        Form::Normal | Form::NormalTarget => {
            push_normal_segment(buffer, start, progress, segment, form)
        }
    }
}

/// Writes one more segment of the path that begins at `start`: the part of the buffer's text from `from` to `to`.
fn push_part(
    buffer: &mut String,
    start: usize,
    progress: Progress,
    from: usize,
    to: usize,
) -> Result<Progress, AllocError>
    requires buffer_ascii { IsAscii (string_bytes buffer.old) }
    requires within { start ≤ length (string_bytes buffer.old) }
    requires ordered { from ≤ to }
    requires part_within { to ≤ length (string_bytes buffer.old) }
    ensures text { (before path : List ℕ) → string_bytes buffer.old ≡ before ++ path
        → length before ≡ start
        → OnOk result
        (string_bytes buffer.new
        ≡ before
        ++ path_then progress path (slice_range (string_bytes buffer.old) from to)) }
    ensures progress { IfOk result
        (λ p. p ≡ progress_then progress (slice_range (string_bytes buffer.old) from to)) }
    ensures ascii { OnOk result (IsAscii (string_bytes buffer.new)) }
    ensures start { OnOk result (start ≤ length (string_bytes buffer.new)) }
{
    let end = buffer.len();
    push_slash(buffer, progress)?;
    buffer.extend_from_within(from..to)?;
    Ok(settle(buffer, start, progress, end))
}

/// Writes more segments of the path that begins at `start`, one after another.
fn push_each_segment(
    buffer: &mut String,
    start: usize,
    progress: Progress,
    path: &str,
    form: Form,
) -> Result<Progress, AllocError>
    requires buffer_ascii { IsAscii (string_bytes buffer.old) }
    requires within { start ≤ length (string_bytes buffer.old) }
    requires ascii { IsAscii path.now }
    requires triples { has_whole_triples path.now ≡ true }
    ensures text { (before written_path : List ℕ) → string_bytes buffer.old ≡ before ++ written_path
        → length before ≡ start
        → OnOk result
        (string_bytes buffer.new
        ≡ before
        ++ path_after progress written_path
        (map (written_text form) (segments path.now))) }
    ensures progress { IfOk result
        (λ p. p ≡ progress_after progress (map (written_text form) (segments path.now))) }
    ensures ascii { OnOk result (IsAscii (string_bytes buffer.new)) }
    ensures start { OnOk result (start ≤ length (string_bytes buffer.new)) }
{
    let mut progress = progress;
    let mut rest = path;
    let mut len = index_of(rest.as_bytes(), b'/');
    'segments: while len < rest.len() {
        progress = push_segment(buffer, start, progress, head(rest, len), form)?;
        rest = tail(rest, len + 1);
        len = index_of(rest.as_bytes(), b'/');
    }
    push_segment(buffer, start, progress, rest, form)
}

/// Appends a path none of whose segments is a dot segment, after a slash where other segments precede it.
fn push_names(buffer: &mut String, progress: Progress, path: &str) -> Result<Progress, AllocError>
    requires { IsAscii path.now }
    ensures text { OnOk result
        (string_bytes buffer.new ≡ string_bytes buffer.old ++ (slash_of progress ++ path.now)) }
    ensures progress { IfOk result (λ p. p ≡ Progress.Within) }
    ensures ascii { OnOk result
        (IsAscii (string_bytes buffer.old) → IsAscii (string_bytes buffer.new)) }
{
    push_slash(buffer, progress)?;
    buffer.push_str(path)?;
    Ok(Progress::Within)
}

/// Appends a path none of whose segments is a dot segment in normal form, in this form, after a slash where other segments
/// precede it.
fn push_normal_names(
    buffer: &mut String,
    progress: Progress,
    path: &str,
    form: Form,
) -> Result<Progress, AllocError>
    requires ascii { IsAscii path.now }
    requires triples { has_whole_triples path.now ≡ true }
    ensures text { OnOk result
        (string_bytes buffer.new
        ≡ string_bytes buffer.old ++ (slash_of progress ++ written_text form path.now)) }
    ensures progress { IfOk result (λ p. p ≡ Progress.Within) }
    ensures ascii { OnOk result
        (IsAscii (string_bytes buffer.old) → IsAscii (string_bytes buffer.new)) }
{
    push_slash(buffer, progress)?;
    form.push(buffer, path)?;
    Ok(Progress::Within)
}

/// Whether a segment of the path may be a dot segment, as it is or in normal form.
fn may_hold_normal_dots(path: &str) -> bool
    ensures names { IsFalse result → AreNames (segments path.now) }
    ensures lacks { IsFalse result → LacksEncodedDot path.now }
{
    let bytes = path.as_bytes();
    may_hold_encoded_dot(bytes) || may_hold_dots(bytes)
}

/// Writes more segments of the path that begins at `start`: all at once, where none is a dot segment.
fn push_segments(
    buffer: &mut String,
    start: usize,
    progress: Progress,
    path: &str,
    form: Form,
) -> Result<Progress, AllocError>
    requires buffer_ascii { IsAscii (string_bytes buffer.old) }
    requires within { start ≤ length (string_bytes buffer.old) }
    requires ascii { IsAscii path.now }
    requires triples { has_whole_triples path.now ≡ true }
    ensures text { (before written_path : List ℕ) → string_bytes buffer.old ≡ before ++ written_path
        → length before ≡ start
        → OnOk result
        (string_bytes buffer.new
        ≡ before
        ++ path_after progress written_path
        (map (written_text form) (segments path.now))) }
    ensures progress { IfOk result
        (λ p. p ≡ progress_after progress (map (written_text form) (segments path.now))) }
    ensures ascii { OnOk result (IsAscii (string_bytes buffer.new)) }
    ensures start { OnOk result (start ≤ length (string_bytes buffer.new)) }
{
    match form {
        Form::Given if !may_hold_dots(path.as_bytes()) => push_names(buffer, progress, path),
        Form::Normal if !may_hold_normal_dots(path) => {
            push_normal_names(buffer, progress, path, form)
        }
        _ => push_each_segment(buffer, start, progress, path, form),
    }
}

/// Appends the slash that a path ends in whose last segment was a dot segment.
fn push_end(buffer: &mut String, progress: Progress) -> Result<(), AllocError>
    ensures text { OnOk result
        (string_bytes buffer.new ≡ string_bytes buffer.old ++ end_of progress) }
    ensures ascii { OnOk result
        (IsAscii (string_bytes buffer.old) → IsAscii (string_bytes buffer.new)) }
{
    match progress {
        Progress::Dots => buffer.push_str("/"),
        Progress::Front | Progress::Within => Ok(()),
    }
}

/// Writes the last segments of the path that begins at `start`.
fn push_rest(
    buffer: &mut String,
    start: usize,
    progress: Progress,
    path: &str,
    form: Form,
) -> Result<(), AllocError>
    requires buffer_ascii { IsAscii (string_bytes buffer.old) }
    requires within { start ≤ length (string_bytes buffer.old) }
    requires ascii { IsAscii path.now }
    requires triples { has_whole_triples path.now ≡ true }
    ensures text { (before written_path : List ℕ) → string_bytes buffer.old ≡ before ++ written_path
        → length before ≡ start
        → OnOk result
        (string_bytes buffer.new
        ≡ before
        ++ ended_path progress written_path
        (map (written_text form) (segments path.now))) }
    ensures ascii { OnOk result (IsAscii (string_bytes buffer.new)) }
{
    let progress = push_segments(buffer, start, progress, path, form)?;
    push_end(buffer, progress)
}

/// Appends a path without its dot segments.
pub fn push_without_dots(buffer: &mut String, path: &str, form: Form) -> Result<(), AllocError>
    requires buffer_ascii { IsAscii (string_bytes buffer.old) }
    requires ascii { IsAscii path.now }
    requires triples { has_whole_triples path.now ≡ true }
    ensures text { OnOk result
        (string_bytes buffer.new
        ≡ string_bytes buffer.old ++ remove_dot_segments (written_text form path.now)) }
    ensures ascii { OnOk result (IsAscii (string_bytes buffer.new)) }
{
    let start = buffer.len();
    push_rest(buffer, start, Progress::Front, path, form.of_parts(path))
}

/// Appends a directory, a slash and a path, without their dot segments.
pub fn push_merged_without_dots(
    buffer: &mut String,
    directory: &str,
    path: &str,
    form: Form,
) -> Result<(), AllocError>
    requires buffer_ascii { IsAscii (string_bytes buffer.old) }
    requires directory_ascii { IsAscii directory.now }
    requires directory_triples { has_whole_triples directory.now ≡ true }
    requires ascii { IsAscii path.now }
    requires triples { has_whole_triples path.now ≡ true }
    ensures text { OnOk result
        (string_bytes buffer.new
        ≡ string_bytes buffer.old
        ++ remove_dot_segments (written_text form (directory.now ++ slash ∷ path.now))) }
    ensures ascii { OnOk result (IsAscii (string_bytes buffer.new)) }
{
    let start = buffer.len();
    let in_front = form.of_parts(directory);
    let progress = push_segments(buffer, start, Progress::Front, directory, in_front)?;
    push_rest(buffer, start, progress, path, form.of_parts(path))
}

/// Writes the path that the buffer's text ends in, from `start` on, once more after it, without its dot segments.
fn push_again(buffer: &mut String, start: usize) -> Result<(), AllocError>
    requires buffer_ascii { IsAscii (string_bytes buffer.old) }
    requires within { start ≤ length (string_bytes buffer.old) }
    ensures text { OnOk result
        (string_bytes buffer.new
        ≡ string_bytes buffer.old
        ++ remove_dot_segments (drop start (string_bytes buffer.old))) }
    ensures ascii { OnOk result (IsAscii (string_bytes buffer.new)) }
{
    let end = buffer.len();
    let mut progress = Progress::Front;
    let mut at = start;
    'segments: while let Some(len) = buffer[at..end].find('/') {
        progress = push_part(buffer, end, progress, at, at + len)?;
        at += len + 1;
    }
    let progress = push_part(buffer, end, progress, at, end)?;
    push_end(buffer, progress)
}

/// Takes the dot segments from the path that the buffer's text ends in, from `start` on: what is left is written after the
/// path, which then goes.
pub fn remove_dots(buffer: &mut String, start: usize) -> Result<(), AllocError>
    requires buffer_ascii { IsAscii (string_bytes buffer.old) }
    requires within { start ≤ length (string_bytes buffer.old) }
    ensures text { OnOk result
        (string_bytes buffer.new
        ≡ take start (string_bytes buffer.old)
        ++ remove_dot_segments (drop start (string_bytes buffer.old))) }
    ensures ascii { OnOk result (IsAscii (string_bytes buffer.new)) }
{
    let end = buffer.len();
    push_again(buffer, start)?;
    buffer.replace_range(start..end, "")
}
