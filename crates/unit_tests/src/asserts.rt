//! The assertions of the tests. One that is written out in a test is proved there once more, and costs more than the rest of it.

use std::alloc::{AllocError, Global};
use std::fmt;
use std::process::Abort;

/// Ends the test where two values differ.
pub fn same<T: PartialEq + fmt::Debug + Copy>(rt: &impl Abort, found: T, wanted: T) {
    same_at(rt, found, wanted, "an assertion of the test itself");
}

/// Ends the test where two values differ, and says where.
pub fn same_at<T: PartialEq + fmt::Debug + Copy>(
    rt: &impl Abort,
    found: T,
    wanted: T,
    place: &str,
) {
    assert_eq!(rt; found, wanted, "at {place}");
}

/// What a value is shown as for debugging.
pub fn shown<T: fmt::Debug>(alloc: Global, value: &T) -> Result<String, AllocError> {
    format!(in alloc; "{value:?}")
}

/// Ends the test where a value is shown otherwise than as this text.
pub fn assert_shown<T: fmt::Debug>(
    rt: &impl Abort,
    alloc: Global,
    value: &T,
    text: &str,
) -> Result<(), AllocError> {
    same(rt, shown(alloc, value)?.as_str(), text);
    Ok(())
}

/// Ends the test where a value is displayed otherwise than as this text.
pub fn assert_displayed<T: fmt::Display>(
    rt: &impl Abort,
    alloc: Global,
    value: &T,
    text: &str,
) -> Result<(), AllocError> {
    same(rt, format!(in alloc; "{value}")?.as_str(), text);
    Ok(())
}

/// Ends the test where an answer, or why there is none, is displayed otherwise than as this text.
pub fn assert_result<T: fmt::Display + Drop, E: fmt::Display + Drop>(
    rt: &impl Abort,
    alloc: Global,
    answer: Result<T, E>,
    text: &str,
) -> Result<(), AllocError> {
    match answer {
        Ok(value) => assert_displayed(rt, alloc, &value, text),
        Err(error) => assert_displayed(rt, alloc, &error, text),
    }
}
