//! Which documents a change may alter the findings of, and which others are looked at for that.
//!
//! Where no references are [led](crate::Report::is_led) to, and none [may come back](crate::Report::may_come_back) to where they began, nothing is looked at but
//! the places that keywords lead to, and what is told of a document depends on few others: each of its references is looked up in the documents that bear the URI that it points into; an identifier of it may be borne by others
//! too; and where its draft is guessed, the first place of another draft that refers to it is told. References aren't followed on from where they lead. What may be
//! meant by a URI that nothing bears depends on which URIs all documents bear, and on nothing else in them; and whether a document that is missing is there with other
//! cases, on the URIs of the documents themselves, which are the same until documents come or go. Whether a member comes again is told by one text alone.
//!
//! Else references are followed on from where they lead: what they lead to is read as they say, and its references are followed in turn; or it is to be found whether
//! they come back to where they began. Then what is told of a document depends on those that a way of references connects it with, in whichever direction each
//! goes. Whether references may come back is asked of all documents, by the names of their members alone: where there is no circle among names, there is none
//! among places.
//!
//! Which definitions nothing uses is found out of all documents, by what of each counts for that ([`unused_after`]); so those documents are judged too that have others than
//! before ([`note_moved`](crate::Unused::note_moved)).
use crate::heads::Heads;
use crate::summary::Summary;
use crate::unused::{Unused, unused_among};
use crate::world::without_fragment;
use ref_index::meanings::{if_meant, meta_schema_of, target_of};
use ref_uri::Uri;
use std::alloc::{AllocError, Global};
use std::collections::BTreeSet;
use std::rc::Rc;

/// Which documents a change may alter the findings of, by their numbers: those that changed; those that refer to a URI that one of these bears or bore, or
/// bear it too; those whose draft may be guessed and that one of these refers or referred to; and, where the URIs that are borne may be others now, those
/// that refer to a document that isn't there, which `wanting` says.
///
/// That is so where references aren't followed on. A rule by which more documents decide what is told of one, as those on a way that goes on from one reference to the
/// next, has to add those here, and what it looks at to [`around`]; or, where that would be most of them, to be asked of those alone that are [`connected`], wherever it may
/// find something, as [`may_any_come_back`] says of the one that finds circles.
pub fn altered(
    alloc: Global,
    before: &[Rc<Summary>],
    after: &[Rc<Summary>],
    wanting: &[bool],
) -> Result<Vec<bool>, AllocError> {
    let mut altered = Vec::with_capacity(alloc, after.len())?;
    let mut moved = Moved::new(alloc);
    for (old, new) in before.iter().zip(after.iter()) {
        let is_changed = old.stamp != new.stamp;
        if is_changed {
            moved.add(alloc, old, new)?;
        }
        altered.push(is_changed)?;
    }
    for (number, summary) in after.iter().enumerate() {
        let is_wanting = wanting.get(number).copied().unwrap_or(true);
        if moved.alters(summary, is_wanting) {
            set(&mut altered, number);
        }
    }
    Ok(altered)
}

/// Which documents are looked at for what is told of some: these; those that bear a URI that one of these bears or refers to; and those that refer
/// to one of these whose draft may be guessed.
pub fn around(
    alloc: Global,
    summaries: &[Rc<Summary>],
    judged: &[bool],
) -> Result<Vec<bool>, AllocError> {
    let mut wanted = BTreeSet::new(alloc);
    let mut guessed = BTreeSet::new(alloc);
    for (summary, is_in) in summaries.iter().zip(judged.iter()) {
        if *is_in {
            add_all(alloc, &mut wanted, &summary.bears)?;
            add_all(alloc, &mut wanted, &summary.refers)?;
            if summary.is_guessed {
                add_all(alloc, &mut guessed, &summary.bears)?;
            }
        }
    }
    flags_of(alloc, summaries, &wanted, &guessed)
}

/// Which documents a way of references connects, in whichever direction each goes, with one that a change may alter the findings of, before it or after it; nothing
/// where that isn't known in a few passes over all. What is told of these depends on no others, and what is told of others on none of these.
pub fn connected(
    alloc: Global,
    before: &[Rc<Summary>],
    after: &[Rc<Summary>],
    wanting: &[bool],
) -> Result<Option<Vec<bool>>, AllocError> {
    let mut flags = altered(alloc, before, after, wanting)?;
    let mut reached = Reached::new(alloc);
    for (number, is_in) in flags.iter().enumerate() {
        if *is_in {
            reached.add_at(alloc, before, after, number)?;
        }
    }
    for _ in 0..MOST_PASSES {
        if !reached.pass(alloc, after, &mut flags)? {
            return Ok(Some(flags));
        }
    }
    Ok(None)
}

// How many passes over all documents are made for those that are connected.
const MOST_PASSES: usize = 16;

// What documents bear and refer to that are connected.
#[derive(Drop)]
struct Reached {
    borne: BTreeSet<String>,
    referred: BTreeSet<String>,
}

impl Reached {
    fn new(alloc: Global) -> Reached {
        Reached {
            borne: BTreeSet::new(alloc),
            referred: BTreeSet::new(alloc),
        }
    }

    // Adds what the document with a number has to do with others, before and after.
    fn add_at(
        &mut self,
        alloc: Global,
        before: &[Rc<Summary>],
        after: &[Rc<Summary>],
        number: usize,
    ) -> Result<(), AllocError> {
        if let (Some(old), Some(new)) = (before.get(number), after.get(number)) {
            self.add(alloc, old)?;
            if old.stamp != new.stamp {
                self.add(alloc, new)?;
            }
        }
        Ok(())
    }

    fn add(&mut self, alloc: Global, summary: &Summary) -> Result<(), AllocError> {
        add_all(alloc, &mut self.borne, &summary.bears)?;
        add_all(alloc, &mut self.referred, &summary.refers)
    }

    // Adds the documents that these lead to or that lead to them, and says whether there are more.
    fn pass(
        &mut self,
        alloc: Global,
        after: &[Rc<Summary>],
        flags: &mut Vec<bool>,
    ) -> Result<bool, AllocError> {
        let mut is_any_new = false;
        for (summary, flag) in after.iter().zip(flags.iter_mut()) {
            if !*flag && self.leads(summary) {
                *flag = true;
                is_any_new = true;
                self.add(alloc, summary)?;
            }
        }
        Ok(is_any_new)
    }

    // Whether a reference leads from one of them to a document, or from there to one of them, or both bear one URI.
    fn leads(&self, summary: &Summary) -> bool {
        has_any(&self.borne, &summary.refers)
            || has_any(&self.borne, &summary.bears)
            || has_any(&self.referred, &summary.bears)
    }
}

/// Whether references may come back to where they began, in all documents: what was so before, where each document leads from the same names to the same names
/// as before. Else as many look-ups as there are references.
pub fn may_any_come_back(
    alloc: Global,
    before: &[Rc<Summary>],
    after: &[Rc<Summary>],
    was: bool,
) -> Result<bool, AllocError> {
    let mut is_same = before.len() == after.len();
    for (old, new) in before.iter().zip(after.iter()) {
        is_same = is_same && (old.stamp == new.stamp || old.heads.is_same(&new.heads));
    }
    if is_same {
        return Ok(was);
    }
    let mut heads = Heads::new(alloc);
    for summary in after {
        heads.add(&summary.heads)?;
    }
    heads.may_come_back(alloc)
}

/// The definitions that nothing uses, in all documents: those that there were before, where of each document counts what did before.
pub fn unused_after(
    alloc: Global,
    before: &[Rc<Summary>],
    after: &[Rc<Summary>],
    was: &Rc<Unused>,
) -> Result<Rc<Unused>, AllocError> {
    let mut is_same = before.len() == after.len();
    for (old, new) in before.iter().zip(after.iter()) {
        is_same = is_same && (old.stamp == new.stamp || old.uses.is_same(&new.uses));
    }
    if is_same {
        return was.clone();
    }
    unused_of(alloc, after)
}

/// The definitions that nothing uses, in all documents. A search among names for each reference to another document, and else linear.
pub fn unused_of(alloc: Global, summaries: &[Rc<Summary>]) -> Result<Rc<Unused>, AllocError> {
    let mut all = Vec::with_capacity(alloc, summaries.len())?;
    for summary in summaries {
        all.push(&summary.uses)?;
    }
    unused_among(alloc, all.as_slice())
}

/// Whether a document without a flag is a description of an API.
pub fn has_description_beyond(summaries: &[Rc<Summary>], flags: &[bool]) -> bool {
    for (summary, is_in) in summaries.iter().zip(flags.iter()) {
        if summary.is_description && !*is_in {
            return true;
        }
    }
    false
}

/// Which documents are looked at for where references of the one with a number lead: those that bear a URI that it bears or refers to, or that one of some
/// texts may mean in it.
pub fn around_one(
    alloc: Global,
    summaries: &[Rc<Summary>],
    number: usize,
    texts: &[String],
) -> Result<Vec<bool>, AllocError> {
    let mut wanted = BTreeSet::new(alloc);
    if let Some(summary) = summaries.get(number) {
        add_all(alloc, &mut wanted, &summary.bears)?;
        add_all(alloc, &mut wanted, &summary.refers)?;
        for text in texts {
            add_meant(alloc, &mut wanted, summary, text.as_str())?;
        }
    }
    flags_of(alloc, summaries, &wanted, &BTreeSet::new(alloc))
}

// Adds the URIs that a text may mean in a document.
fn add_meant(
    alloc: Global,
    uris: &mut BTreeSet<String>,
    summary: &Summary,
    text: &str,
) -> Result<(), AllocError> {
    for base in &summary.bears {
        if let Some(uri) = meant_from(alloc, base.as_str(), text)? {
            let uri = without_fragment(uri.as_str());
            uris.insert(String::from_str(alloc, uri)?)?;
        }
    }
    Ok(())
}

// The URI that a text means against the text of a base.
fn meant_from(alloc: Global, base: &str, text: &str) -> Result<Option<Rc<Uri>>, AllocError> {
    match if_meant(meta_schema_of(alloc, base))? {
        Some(base) => if_meant(target_of(alloc, &base, text)),
        None => Ok(None),
    }
}

// Which documents bear one of some URIs, or refer to one of others.
fn flags_of(
    alloc: Global,
    summaries: &[Rc<Summary>],
    borne: &BTreeSet<String>,
    referred: &BTreeSet<String>,
) -> Result<Vec<bool>, AllocError> {
    let mut flags = Vec::with_capacity(alloc, summaries.len())?;
    for summary in summaries {
        flags.push(has_any(borne, &summary.bears) || has_any(&summary.refers, referred))?;
    }
    Ok(flags)
}

// What documents that changed bear or bore, and refer or referred to.
#[derive(Drop)]
struct Moved {
    borne: BTreeSet<String>,
    referred: BTreeSet<String>,
    // Whether they may bear other URIs now.
    is_renamed: bool,
}

impl Moved {
    fn new(alloc: Global) -> Moved {
        Moved {
            borne: BTreeSet::new(alloc),
            referred: BTreeSet::new(alloc),
            is_renamed: false,
        }
    }

    // Adds a document, by its summaries before and after.
    fn add(&mut self, alloc: Global, old: &Summary, new: &Summary) -> Result<(), AllocError> {
        for summary in [old, new] {
            add_all(alloc, &mut self.borne, &summary.bears)?;
            add_all(alloc, &mut self.referred, &summary.refers)?;
        }
        if may_rename(old, new) {
            self.is_renamed = true;
        }
        Ok(())
    }

    // Whether they may alter what is told of a document.
    fn alters(&self, summary: &Summary, is_wanting: bool) -> bool {
        (self.is_renamed && is_wanting)
            || has_any(&summary.refers, &self.borne)
            || has_any(&summary.bears, &self.borne)
            || (summary.is_guessed && has_any(&self.referred, &summary.bears))
    }
}

// Whether two sets have a text in common. As many look-ups as the smaller one has texts.
fn has_any(set: &BTreeSet<String>, texts: &BTreeSet<String>) -> bool {
    if set.len() < texts.len() {
        set.iter().any(|text| texts.contains(text.as_str()))
    } else {
        texts.iter().any(|text| set.contains(text.as_str()))
    }
}

// Whether a document may bear other URIs than before: it has or had something that may be an identifier, which counts at a place and nowhere else; or it came
// to have a value, or has none any more.
fn may_rename(old: &Summary, new: &Summary) -> bool {
    old.has_identifier || new.has_identifier || old.has_value != new.has_value
}

fn add_all(
    alloc: Global,
    set: &mut BTreeSet<String>,
    texts: &BTreeSet<String>,
) -> Result<(), AllocError> {
    for text in texts {
        set.insert(String::from_str(alloc, text.as_str())?)?;
    }
    Ok(())
}

fn set(flags: &mut Vec<bool>, number: usize) {
    if let Some(flag) = flags.get_mut(number) {
        *flag = true;
    }
}
