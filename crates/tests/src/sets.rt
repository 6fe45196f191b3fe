//! Sets of vocabularies.
use crate::fault::{Fault, done, made};
use crate::row;
use ref_vocabularies::{Vocabulary, VocabularySet};
use serde_json::Value;
use std::alloc::Global;

/// Adds the vocabularies that texts name, in turn.
fn add_each(alloc: Global, set: &mut VocabularySet, texts: &[Value]) -> Result<(), Fault> {
    for text in texts {
        let text = text.as_str().unwrap_or("no text");
        let vocabulary = done(alloc, Vocabulary::from_text(alloc, text))?;
        set.add(alloc, vocabulary)?;
    }
    Ok(())
}

/// The set of the vocabularies that the texts of a column name, added to an empty one.
fn set_of(
    alloc: Global,
    empty: VocabularySet,
    row: &Value,
    number: usize,
) -> Result<VocabularySet, Fault> {
    let mut set = empty;
    add_each(alloc, &mut set, row::list(row, number)?)?;
    Ok(set)
}

/// The vocabulary that the text of a column names.
fn vocabulary(alloc: Global, row: &Value, number: usize) -> Result<Vocabulary, Fault> {
    done(alloc, Vocabulary::from_text(alloc, row::text(row, number)?))
}

/// Of a row of texts: the set of the vocabularies that they name.
fn of_texts(alloc: Global, row: &Value) -> Result<String, Fault> {
    let set = set_of(alloc, VocabularySet::new(), row, 1)?;
    made(format!(in alloc; "{set:?}"))
}

/// The bits of a column.
fn bits_of(row: &Value, number: usize) -> Result<u16, Fault> {
    Ok((row::number(row, number)? & 0xffff) as u16)
}

/// The set of the bits in a row's first column and of the vocabularies that the texts in the next one name.
fn of_bits_and_texts(alloc: Global, row: &Value) -> Result<VocabularySet, Fault> {
    let known = VocabularySet::from_known(bits_of(row, 1)?);
    set_of(alloc, known, row, 2)
}

/// Of a row of bits and texts: the set of them.
fn of_bits(alloc: Global, row: &Value) -> Result<String, Fault> {
    let set = of_bits_and_texts(alloc, row)?;
    made(format!(in alloc; "{set:?}"))
}

/// Of a row of a bit, a text and other bits: whether the set of the bit has the vocabulary of the text, whether that of
/// the others has it, and whether it is equal to its copy.
fn of_a_bit(alloc: Global, row: &Value) -> Result<String, Fault> {
    let (bit, others) = (bits_of(row, 1)?, bits_of(row, 3)?);
    let vocabulary = vocabulary(alloc, row, 2)?;
    let is_in = VocabularySet::from_known(bit).contains(&vocabulary);
    let is_in_others = VocabularySet::from_known(others).contains(&vocabulary);
    let is_same = vocabulary.clone()? == vocabulary;
    made(format!(in alloc; "{is_in} {is_in_others} {is_same}"))
}

/// Of a row of texts: the URIs of the custom vocabularies in the set of them, a line for each, and a copy of the set.
fn custom(alloc: Global, row: &Value) -> Result<String, Fault> {
    let set = set_of(alloc, VocabularySet::new(), row, 1)?;
    let mut uris = String::new(alloc);
    for uri in set.custom() {
        uris.push_str(uri)?;
        uris.push_str("\n")?;
    }
    let copy = set.clone()?;
    made(format!(in alloc; "{uris}{copy:?}"))
}

/// Of a row of two lists of texts: whether the sets of them are equal. One begins as the default set, and one as a new one.
fn are_equal(alloc: Global, row: &Value) -> Result<String, Fault> {
    let set = set_of(alloc, VocabularySet::default(), row, 1)?;
    let other = set_of(alloc, VocabularySet::new(), row, 2)?;
    made(format!(in alloc; "{}", set == other))
}

/// Of a row of bits, texts and one more: whether the set of them has the vocabulary of that.
fn contains(alloc: Global, row: &Value) -> Result<String, Fault> {
    let set = of_bits_and_texts(alloc, row)?;
    let vocabulary = vocabulary(alloc, row, 3)?;
    made(format!(in alloc; "{}", set.contains(&vocabulary)))
}

/// Adds the vocabulary that a text names: whether the set had it before, and whether it has it then.
fn grown_by(alloc: Global, set: &mut VocabularySet, text: &str) -> Result<[bool; 2], Fault> {
    let vocabulary = done(alloc, Vocabulary::from_text(alloc, text))?;
    let had = set.contains(&vocabulary);
    set.add(alloc, vocabulary.clone()?)?;
    Ok([had, set.contains(&vocabulary)])
}

/// The same of texts in turn: a `+` for each that it has, and a `-` for each that it hasn't.
fn grown_by_each(alloc: Global, set: &mut VocabularySet, texts: &[Value]) -> Result<String, Fault> {
    let mut marks = String::new(alloc);
    for text in texts {
        let [had, has] = grown_by(alloc, set, text.as_str().unwrap_or("no text"))?;
        marks.push(if had { '+' } else { '-' })?;
        marks.push(if has { '+' } else { '-' })?;
    }
    Ok(marks)
}

/// Of a row of texts, and of others that are added to their set in turn.
fn grown(alloc: Global, row: &Value) -> Result<String, Fault> {
    let mut set = set_of(alloc, VocabularySet::new(), row, 1)?;
    grown_by_each(alloc, &mut set, row::list(row, 2)?)
}

/// What is found of a row of a table on sets of vocabularies.
pub fn found(alloc: Global, table: &str, row: &Value) -> Result<String, Fault> {
    match table {
        "vocabulary sets" => of_texts(alloc, row),
        "sets of bits" => of_bits(alloc, row),
        "single bits" => of_a_bit(alloc, row),
        "custom vocabularies" => custom(alloc, row),
        "equal sets" => are_equal(alloc, row),
        "contained vocabularies" => contains(alloc, row),
        "grown sets" => grown(alloc, row),
        _ => Err(Fault::Form("no such table")),
    }
}
