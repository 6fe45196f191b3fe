//! The texts that a text with braces stands for. Read `specs/Choices.antt` first.
ghost use Rattle.std.specs.Prelude.{◌≡◌, ◌∷◌, ◌++◌, [], true, false, None, Ok, map, option_map, IfOk, OnOk, List, ℕ, Vec};
ghost use Rattle.std.specs.declared.alloc.Global.{Global};
ghost use Rattle.ref_patterns.specs.Choices as spec;

use std::alloc::{AllocError, Global};
use std::mem;

// How many texts without braces a text may stand for.
const MOST_TEXTS: usize = 256;

// What is read of a text.
#[derive(Drop)]
struct Read {
    // The texts that it stands for up to the last brace.
    texts: Vec<Vec<u8>>,
    // What is read after that.
    before: Vec<u8>,
    // Whether a brace is open.
    is_open: bool,
    // The choices of the brace that is open, but for the last one.
    choices: Vec<Vec<u8>>,
    // What is read of the last one.
    last: Vec<u8>,
}

/// The texts that a text stands for: with one of the choices in a brace in its place. `None` where a brace isn't closed or opened, or is
/// within another, or there are more than 256 texts.
pub(crate) fn texts_of(alloc: Global, text: &[u8]) -> Result<Option<Vec<Vec<u8>>>, AllocError>
    ensures value { IfOk result (λ found. option_map spec.lists_of found ≡ spec.texts_of text.now) }
{
    let mut read = nothing_read(alloc)?;
    for index in 0..text.len() {
        if !read_byte(alloc, &mut read, text[index])? {
            return Ok(None);
        }
    }
    if read.is_open {
        return Ok(None);
    }
    Ok(Some(texts_before(alloc, &read)?))
}

// What is read of any text at its beginning: it stands for one text, which is empty so far.
fn nothing_read(alloc: Global) -> Result<Read, AllocError>
    ensures value { IfOk result (λ read. (s : List ℕ) → spec.texts_after read s ≡ spec.texts_of s) }
{
    let mut texts = Vec::new(alloc);
    push_list(&mut texts, Vec::new(alloc))?;
    Ok(Read {
        texts,
        before: Vec::new(alloc),
        is_open: false,
        choices: Vec::new(alloc),
        last: Vec::new(alloc),
    })
}

// The texts with what is read after the last brace.
fn texts_before(alloc: Global, read: &Read) -> Result<Vec<Vec<u8>>, AllocError>
    ensures value { IfOk result (λ texts. spec.lists_of texts ≡ spec.texts_before read.now) }
{
    let mut texts = Vec::new(alloc);
    for text in &read.texts {
        let text = joined(alloc, text.as_slice(), read.before.as_slice(), &[])?;
        push_list(&mut texts, text)?;
    }
    Ok(texts)
}

// Reads a byte more. Returns whether the text may still stand for texts.
fn read_byte(alloc: Global, read: &mut Read, byte: u8) -> Result<bool, AllocError>
    ensures goes_on { result ≡ Ok true → (s : List ℕ)
        → spec.texts_after read.new s ≡ spec.texts_after read.old (byte ∷ s) }
    ensures ends { result ≡ Ok false → (s : List ℕ)
        → spec.texts_after read.old (byte ∷ s) ≡ None }
{
    if read.is_open {
        read_within(alloc, read, byte)
    } else {
        read_outside(alloc, read, byte)
    }
}

// The same where no brace is open.
fn read_outside(alloc: Global, read: &mut Read, byte: u8) -> Result<bool, AllocError>
    requires { read.old.is_open ≡ false }
    ensures goes_on { result ≡ Ok true → (s : List ℕ)
        → spec.texts_after read.new s ≡ spec.texts_after read.old (byte ∷ s) }
    ensures ends { result ≡ Ok false → (s : List ℕ)
        → spec.texts_after read.old (byte ∷ s) ≡ None }
{
    if byte == b'{' {
        read.is_open = true;
        read.choices = Vec::new(alloc);
        read.last = Vec::new(alloc);
        return Ok(true);
    }
    if byte == b'}' {
        return Ok(false);
    }
    read.before.push(byte)?;
    Ok(true)
}

// The same where a brace is open.
fn read_within(alloc: Global, read: &mut Read, byte: u8) -> Result<bool, AllocError>
    requires { read.old.is_open ≡ true }
    ensures goes_on { result ≡ Ok true → (s : List ℕ)
        → spec.texts_after read.new s ≡ spec.texts_after read.old (byte ∷ s) }
    ensures ends { result ≡ Ok false → (s : List ℕ)
        → spec.texts_after read.old (byte ∷ s) ≡ None }
{
    if byte == b'{' {
        return Ok(false);
    }
    if byte != b'}' && byte != b',' {
        read.last.push(byte)?;
        return Ok(true);
    }
    let last = mem::replace(&mut read.last, Vec::new(alloc));
    push_list(&mut read.choices, last)?;
    if byte == b',' {
        return Ok(true);
    }
    close(alloc, read)
}

// Closes the brace, whose choices are all read.
fn close(alloc: Global, read: &mut Read) -> Result<bool, AllocError>
    ensures goes_on { result ≡ Ok true → (s : List ℕ)
        → spec.texts_after read.new s ≡ spec.closed read.old s }
    ensures ends { result ≡ Ok false → (s : List ℕ) → spec.closed read.old s ≡ None }
{
    if read.texts.len().saturating_mul(read.choices.len()) > MOST_TEXTS {
        return Ok(false);
    }
    read.texts = with_choices(
        alloc,
        read.texts.as_slice(),
        read.before.as_slice(),
        read.choices.as_slice(),
    )?;
    read.before = Vec::new(alloc);
    read.is_open = false;
    Ok(true)
}

// Each text with another after it, and after that each of the choices.
fn with_choices(
    alloc: Global,
    texts: &[Vec<u8>],
    before: &[u8],
    choices: &[Vec<u8>],
) -> Result<Vec<Vec<u8>>, AllocError>
    ensures value { IfOk result (λ all. spec.lists_of all
        ≡ spec.with_choices (map (λ text. text ++ before.now) (map (λ (t : Vec ℕ Global). t.items) texts.now))
        (map (λ (c : Vec ℕ Global). c.items) choices.now)) }
{
    let mut all = Vec::new(alloc);
    for text in texts {
        push_choices(alloc, &mut all, text.as_slice(), before, choices)?;
    }
    Ok(all)
}

// Adds a text with another after it, and after that each of the choices.
fn push_choices(
    alloc: Global,
    all: &mut Vec<Vec<u8>>,
    text: &[u8],
    before: &[u8],
    choices: &[Vec<u8>],
) -> Result<(), AllocError>
    ensures value { OnOk result (spec.lists_of all.new
        ≡ spec.lists_of all.old
        ++ map (λ choice. (text.now ++ before.now) ++ choice)
        (map (λ (c : Vec ℕ Global). c.items) choices.now)) }
{
    for choice in choices {
        push_list(all, joined(alloc, text, before, choice.as_slice())?)?;
    }
    Ok(())
}

// Three texts, one after another.
fn joined(alloc: Global, text: &[u8], before: &[u8], choice: &[u8]) -> Result<Vec<u8>, AllocError>
    ensures value { IfOk result (λ all. all.items ≡ (text.now ++ before.now) ++ choice.now) }
{
    let mut all = Vec::new(alloc);
    all.extend_from_slice(text)?;
    all.extend_from_slice(before)?;
    all.extend_from_slice(choice)?;
    Ok(all)
}

fn push_list(lists: &mut Vec<Vec<u8>>, list: Vec<u8>) -> Result<(), AllocError>
    ensures value { OnOk result (spec.lists_of lists.new ≡ spec.lists_of lists.old ++ list.items ∷ []) }
{
    lists.push(list)?;
    Ok(())
}
