//! Documents that bear a URI which others bear too, and those that descriptions lead to. An anchor is looked up by the URI of the schema around it, in
//! whichever document it is.
use ref_workspace::Summary;
use std::alloc::{AllocError, Global};
use std::collections::BTreeSet;
use std::rc::Rc;

/// Adds the documents that bear a URI that one of those with flags bears too, and those that bear one of these, until there are no more. Those with flags
/// that bear their own URI alone are passed over: who else bears that is to have a flag already. A pass over all summaries, where others bear more.
pub fn add_sharers(
    alloc: Global,
    summaries: &[Rc<Summary>],
    flags: &mut Vec<bool>,
) -> Result<(), AllocError> {
    let mut borne = BTreeSet::new(alloc);
    for (summary, is_in) in summaries.iter().zip(flags.iter()) {
        if *is_in && summary.bears.len() > 1 {
            add_all(alloc, &mut borne, &summary.bears)?;
        }
    }
    let _ = spread(alloc, summaries, &mut borne, flags, false)?;
    Ok(())
}

/// The descriptions, and the documents that these and what they lead to refer to, by flags; with those that bear a URI that one of them bears too. A pass
/// over all summaries for each step from the descriptions on.
pub fn described_among(alloc: Global, summaries: &[Rc<Summary>]) -> Result<Vec<bool>, AllocError> {
    let mut reached = BTreeSet::new(alloc);
    let mut flags = Vec::with_capacity(alloc, summaries.len())?;
    for summary in summaries {
        if summary.is_description {
            add_all(alloc, &mut reached, &summary.bears)?;
            add_all(alloc, &mut reached, &summary.refers)?;
        }
        flags.push(summary.is_description)?;
    }
    let _ = spread(alloc, summaries, &mut reached, &mut flags, true)?;
    Ok(flags)
}

/// Adds the documents that changes may alter the findings of since others bear a URI that a document which changed bears or bore: those that bear or refer to
/// what these others bear. A pass over all summaries, and two more where there are such.
pub fn add_altered(
    alloc: Global,
    before: &[Rc<Summary>],
    after: &[Rc<Summary>],
    altered: &mut Vec<bool>,
) -> Result<(), AllocError> {
    let mut borne = BTreeSet::new(alloc);
    let mut flags = Vec::with_capacity(alloc, after.len())?;
    for (old, new) in before.iter().zip(after.iter()) {
        let is_changed = old.stamp != new.stamp;
        if is_changed {
            add_all(alloc, &mut borne, &old.bears)?;
            add_all(alloc, &mut borne, &new.bears)?;
        }
        flags.push(is_changed)?;
    }
    if spread(alloc, after, &mut borne, &mut flags, false)? {
        for (summary, flag) in after.iter().zip(altered.iter_mut()) {
            *flag = *flag || has_any(&borne, &summary.refers) || has_any(&borne, &summary.bears);
        }
    }
    Ok(())
}

// Adds the documents that bear one of some URIs, and to these what they bear, and what they refer to where that is followed, until there are no more. Says
// whether there were any.
fn spread(
    alloc: Global,
    summaries: &[Rc<Summary>],
    reached: &mut BTreeSet<String>,
    flags: &mut Vec<bool>,
    is_followed: bool,
) -> Result<bool, AllocError> {
    if reached.is_empty() {
        return Ok(false);
    }
    let mut is_any = false;
    for _ in 0..summaries.len() {
        if !pass(alloc, summaries, reached, flags, is_followed)? {
            break;
        }
        is_any = true;
    }
    Ok(is_any)
}

// The same once, and whether there may be more.
fn pass(
    alloc: Global,
    summaries: &[Rc<Summary>],
    reached: &mut BTreeSet<String>,
    flags: &mut Vec<bool>,
    is_followed: bool,
) -> Result<bool, AllocError> {
    let mut is_any_new = false;
    for (summary, flag) in summaries.iter().zip(flags.iter_mut()) {
        if !*flag && has_any(&*reached, &summary.bears) {
            *flag = true;
            is_any_new = true;
            add_all(alloc, reached, &summary.bears)?;
            if is_followed {
                add_all(alloc, reached, &summary.refers)?;
            }
        }
    }
    Ok(is_any_new)
}

// Whether one of some texts is in a set.
fn has_any(set: &BTreeSet<String>, texts: &BTreeSet<String>) -> bool {
    texts.iter().any(|text| set.contains(text.as_str()))
}

fn add_all(
    alloc: Global,
    set: &mut BTreeSet<String>,
    texts: &BTreeSet<String>,
) -> Result<(), AllocError> {
    for text in texts {
        set.insert(String::from_str(alloc, text.as_str())?)?;
    }
    Ok(())
}
