//! What a client was told.
ghost use Rattle.std.specs.Prelude.{◌≡◌, IfOk, option_map, string_bytes};
ghost use Rattle.ref_lsp.specs.Diagnostics as spec;

use crate::desk::Desk;
use crate::judged::{Bounds, Fix, Judged, Note, judge};
use crate::sharers::{add_altered, add_sharers};
use ref_levels::{Levels, is_listed};
use ref_messages::Level;
use ref_protocol::methods::Phase;
use ref_protocol::pieces::push_text;
use ref_protocol::sending::Unsent;
use ref_protocol::wire::Wire;
use ref_streams::{Sink, Source};
use ref_workspace::near::{
    altered, around, connected, has_description_beyond, may_any_come_back, unused_after,
};
use ref_workspace::{Known, Summary, Unused};
use std::alloc::{AllocError, Global};
use std::collections::BTreeMap;
use std::mem::swap;
use std::rc::Rc;

/// What a client was told, and what it can.
#[derive(Drop)]
pub struct Told {
    /// How far the server is.
    pub phase: Phase,
    /// Whether the client asks for diagnostics, and none are sent.
    pub pulls: bool,
    /// Whether it is to be asked to watch files.
    pub watches: bool,
    /// How often it was asked to ask for diagnostics again: nothing where it isn't to be.
    pub renewals: Option<usize>,
    // The lists of diagnostics that were sent, by URIs.
    lists: BTreeMap<String, String>,
    /// What mends something.
    pub fixes: Vec<Fix>,
    /// Whether these are those of the documents as they are.
    pub is_fresh: bool,
}

/// The rules by which documents are judged, and what a client was told of them.
#[derive(Drop)]
pub struct Shown {
    /// What it was told.
    pub told: Told,
    /// The rules.
    pub rules: Rules,
    /// What is kept of the last judgement.
    pub kept: Kept,
}

/// What is kept of the last judgement, so that only what a change alters is judged after it.
#[derive(Drop)]
pub struct Kept {
    // The round of the summaries that it was made by; nothing where there was none.
    round: Option<usize>,
    summaries: Vec<Rc<Summary>>,
    // By the numbers of the documents.
    notes: Vec<Note>,
    // What was known of all documents; nothing where nothing was judged.
    known: Option<Known>,
}

// How many searches for what may be meant the `lint` of all documents surely ends: each takes at most a fiftieth of what all may take.
const MOST_SEARCHES: usize = 48;

// How many searches the judgement on a document took, by what was noted before, or now where it is judged.
fn searches_at(judged: Option<(&Bounds, &[Note])>, number: usize, before: &Note) -> usize
    ensures { result ≡ spec.searches_at
        (option_map (λ j. (j.0.now.judged.items, j.1.now)) judged.entry) number before.now }
{
    match judged {
        Some((bounds, notes)) if bounds.has(number) => match notes.get(number) {
            Some(note) => note.searches,
            None => 0,
        },
        _ => before.searches,
    }
}

// Whether all searches end, with those of documents that were judged in place of those before.
fn is_bounded(judged: Option<(&Bounds, &[Note])>, notes: &[Note]) -> bool
    ensures { result ≡ spec.is_bounded
        (option_map (λ j. (j.0.now.judged.items, j.1.now)) judged.entry) notes.now }
{
    let mut left = MOST_SEARCHES;
    let mut rest = notes;
    let mut number: usize = 0;
    'notes: while let [note, more @ ..] = rest {
        let searches = searches_at(judged, number, note);
        if left < searches {
            return false;
        }
        left -= searches;
        number += 1;
        rest = more;
    }
    true
}

impl Kept {
    /// Nothing.
    pub fn new(alloc: Global) -> Kept {
        Kept {
            round: None,
            summaries: Vec::new(alloc),
            notes: Vec::new(alloc),
            known: None,
        }
    }

    // Which documents are to be judged: nothing where all are.
    fn bounds(&self, desk: &Desk<'_>) -> Result<Option<Bounds>, AllocError> {
        let Some(known) = &self.known else {
            return Ok(None);
        };
        let is_known = self.round == Some(desk.summaries.round);
        if !is_known || !desk.summaries.are_complete || !self.is_bounded(None) {
            return Ok(None);
        }
        let alloc = desk.alloc();
        let after = desk.summaries.list.as_slice();
        let before = self.summaries.as_slice();
        let may = may_any_come_back(alloc, before, after, known.may_come_back)?;
        let unused = unused_after(alloc, before, after, &known.unused)?;
        if known.is_led || known.may_come_back {
            self.led_bounds(alloc, known, after, (may, unused))
        } else if may {
            drop(unused);
            Ok(None)
        } else {
            self.plain_bounds(alloc, known, after, unused)
        }
    }

    /// Whether references may lead to places that no keyword leads to, or there may be descriptions: so it was when all was judged last, or nothing was.
    pub fn may_be_led(&self) -> bool
        ensures value { result
            ≡ spec.may_be_led (option_map (λ known. known.is_led) self.now.known) }
    {
        match &self.known {
            Some(known) => known.is_led,
            None => true,
        }
    }

    // By the numbers of the documents, whether one refers to a document that isn't there.
    fn wanting(&self, alloc: Global) -> Result<Vec<bool>, AllocError> {
        let mut wanting = Vec::with_capacity(alloc, self.notes.len())?;
        for note in &self.notes {
            wanting.push(note.is_wanting)?;
        }
        Ok(wanting)
    }

    // The bounds where references aren't followed on.
    fn plain_bounds(
        &self,
        alloc: Global,
        known: &Known,
        after: &[Rc<Summary>],
        unused: Rc<Unused>,
    ) -> Result<Option<Bounds>, AllocError> {
        let wanting = self.wanting(alloc)?;
        let before = self.summaries.as_slice();
        let mut judged = altered(alloc, before, after, wanting.as_slice())?;
        add_altered(alloc, before, after, &mut judged)?;
        let _ = unused.note_moved(&known.unused, &mut judged);
        let mut there = around(alloc, after, judged.as_slice())?;
        add_sharers(alloc, after, &mut there)?;
        Ok(Some(Bounds {
            judged,
            there,
            known: Some(Known {
                is_led: false,
                may_come_back: false,
                unused,
            }),
        }))
    }

    // The bounds where they are, or were.
    fn led_bounds(
        &self,
        alloc: Global,
        known: &Known,
        after: &[Rc<Summary>],
        (may, unused): (bool, Rc<Unused>),
    ) -> Result<Option<Bounds>, AllocError> {
        let wanting = self.wanting(alloc)?;
        let before = self.summaries.as_slice();
        let Some(judged) = connected(alloc, before, after, wanting.as_slice())? else {
            return Ok(None);
        };
        let mut judged = judged;
        if unused.note_moved(&known.unused, &mut judged) {
            return Ok(None);
        }
        let is_led = has_description_beyond(after, judged.as_slice());
        let there = Vec::from_slice(alloc, judged.as_slice())?;
        Ok(Some(Bounds {
            judged,
            there,
            known: Some(Known {
                is_led,
                may_come_back: may,
                unused,
            }),
        }))
    }

    // Whether all searches end, with those of documents that were judged in place of those before.
    fn is_bounded(&self, judged: Option<(&Bounds, &Judged)>) -> bool
        ensures { result ≡ spec.is_bounded
            (option_map (λ j. (j.0.now.judged.items, j.1.now.notes.items)) judged.entry)
            self.now.notes.items }
    {
        let judged = match judged {
            Some((bounds, judged)) => Some((bounds, judged.notes.as_slice())),
            None => None,
        };
        is_bounded(judged, self.notes.as_slice())
    }

    // Keeps by which summaries documents were judged.
    fn keep_summaries(&mut self, desk: &Desk<'_>) -> Result<(), AllocError> {
        self.summaries.clear();
        for summary in &desk.summaries.list {
            self.summaries.push(summary.clone()?)?;
        }
        Ok(())
    }
}

/// The levels of rules, and the least level that is shown.
#[derive(Drop)]
pub struct Rules {
    /// The levels.
    pub levels: Levels,
    /// The least.
    pub least: Level,
}

impl Rules {
    /// The level of a finding of a rule in the file at an absolute path: nothing where it is off there. `own` is the rule's own: nothing where it is off by itself.
    pub fn level(
        &mut self,
        path: &str,
        code: &str,
        own: Option<Level>,
    ) -> Result<Option<Level>, AllocError> {
        match own {
            Some(own) => self.levels.level(path, code, own),
            None => self.levels.level_set(path, code),
        }
    }

    /// Whether findings of a level are shown.
    pub(crate) fn shows(&self, level: Level) -> bool {
        is_listed(level, self.least)
    }

    /// Whether it is told which references weren't checked: its rule is set.
    pub(crate) fn has_unchecked(&self) -> bool {
        self.levels.has("unchecked-reference")
    }

    /// Whether it is told what is beside references of descriptions: one of its rules is set.
    pub(crate) fn tells_beside(&self) -> bool {
        self.levels.has("ignored-beside-ref") || self.levels.has("annotation-beside-ref")
    }
}

impl Told {
    /// Nothing was told.
    pub fn new(alloc: Global) -> Told {
        Told {
            phase: Phase::New,
            pulls: false,
            watches: false,
            renewals: None,
            lists: BTreeMap::new(alloc),
            fixes: Vec::new(alloc),
            is_fresh: false,
        }
    }

    /// The list of diagnostics of a document, in JSON.
    pub fn list(&self, alloc: Global, uri: &str) -> Result<String, AllocError> {
        match self.lists.get(uri) {
            Some(list) => {
                let mut list = list.clone()?;
                list.push(']')?;
                Ok(list)
            }
            None => String::from_str(alloc, "[]"),
        }
    }

    fn add_fixes(&mut self, fixes: Vec<Fix>) -> Result<(), AllocError> {
        for fix in fixes {
            self.fixes.push(fix)?;
        }
        Ok(())
    }

    fn set_list(&mut self, uri: String, list: String) -> Result<(), AllocError> {
        self.lists.insert(uri, list)?;
        Ok(())
    }

    fn send_all<R: Source + Drop, W: Sink + Drop>(
        &self,
        alloc: Global,
        wire: &mut Wire<R, W>,
        lists: &BTreeMap<String, String>,
    ) -> Result<(), Unsent> {
        self.send_gone(alloc, wire, lists)?;
        for (uri, list) in lists {
            let is_sent = match self.lists.get(uri.as_str()) {
                Some(sent) => sent.as_str() == list.as_str(),
                None => false,
            };
            if !is_sent {
                send_list(alloc, wire, uri.as_str(), list.as_str())?;
            }
        }
        Ok(())
    }

    // Sends that documents have no diagnostics any more.
    fn send_gone<R: Source + Drop, W: Sink + Drop>(
        &self,
        alloc: Global,
        wire: &mut Wire<R, W>,
        lists: &BTreeMap<String, String>,
    ) -> Result<(), Unsent> {
        for (uri, _) in &self.lists {
            if lists.get(uri.as_str()).is_none() {
                send_list(alloc, wire, uri.as_str(), "[")?;
            }
        }
        Ok(())
    }
}

impl Shown {
    /// Judges the documents where that isn't done yet, those alone that what changed may alter the findings of, and sends the lists that are others
    /// now.
    pub fn refresh<R: Source + Drop, W: Sink + Drop>(
        &mut self,
        desk: &Desk<'_>,
        wire: &mut Wire<R, W>,
    ) -> Result<(), Unsent> {
        if self.told.is_fresh || self.told.phase != Phase::Running {
            return Ok(());
        }
        match self.kept.bounds(desk)? {
            Some(bounds) => self.refresh_some(desk, wire, bounds),
            None => self.refresh_all(desk, wire),
        }
    }

    fn refresh_all<R: Source + Drop, W: Sink + Drop>(
        &mut self,
        desk: &Desk<'_>,
        wire: &mut Wire<R, W>,
    ) -> Result<(), Unsent> {
        let alloc = desk.alloc();
        let bounds = Bounds::all(alloc);
        let judged = judge(desk, &mut self.rules, &bounds)?;
        if !self.told.pulls {
            self.told.send_all(alloc, wire, &judged.lists)?;
        }
        let Judged {
            lists,
            fixes,
            notes,
            known,
        } = judged;
        self.told.lists = lists;
        self.told.fixes = fixes;
        self.told.is_fresh = true;
        self.kept.notes = notes;
        self.kept.known = Some(known);
        self.kept.round = Some(desk.summaries.round);
        self.kept.keep_summaries(desk)?;
        Ok(())
    }

    // Judges some documents; all, where the report on some isn't what one on all says of them.
    fn refresh_some<R: Source + Drop, W: Sink + Drop>(
        &mut self,
        desk: &Desk<'_>,
        wire: &mut Wire<R, W>,
        bounds: Bounds,
    ) -> Result<(), Unsent> {
        let judged = judge(desk, &mut self.rules, &bounds)?;
        let was_led = self.kept.known.as_ref().is_some_and(|known| known.is_led);
        if judged.known.is_led != was_led || !self.kept.is_bounded(Some((&bounds, &judged))) {
            drop(judged);
            return self.refresh_all(desk, wire);
        }
        self.take_some(desk, wire, &bounds, judged)
    }

    // Takes what is wrong with some documents in place of what was told of them.
    fn take_some<R: Source + Drop, W: Sink + Drop>(
        &mut self,
        desk: &Desk<'_>,
        wire: &mut Wire<R, W>,
        bounds: &Bounds,
        judged: Judged,
    ) -> Result<(), Unsent> {
        let Judged {
            lists,
            fixes,
            notes,
            known,
        } = judged;
        for (number, note) in notes.into_iter().enumerate() {
            if bounds.has(number) {
                self.take_note(desk, wire, number, note, &lists)?;
            }
        }
        self.take_lists(desk.alloc(), wire, lists)?;
        self.told.add_fixes(fixes)?;
        self.kept.known = Some(known);
        self.kept.keep_summaries(desk)?;
        self.told.is_fresh = true;
        Ok(())
    }

    // Takes the note of a document in place of the one before, forgets what mended it, and sends that it has no diagnostics any more, where that is so.
    fn take_note<R: Source + Drop, W: Sink + Drop>(
        &mut self,
        desk: &Desk<'_>,
        wire: &mut Wire<R, W>,
        number: usize,
        note: Note,
        lists: &BTreeMap<String, String>,
    ) -> Result<(), Unsent> {
        let Some(place) = self.kept.notes.get_mut(number) else {
            return Ok(());
        };
        let mut old = note;
        swap(place, &mut old);
        let Some(uri) = old.uri else {
            return Ok(());
        };
        self.told
            .fixes
            .retain(|fix| fix.uri.as_str() != uri.as_str());
        if !lists.contains_key(uri.as_str()) {
            self.told.lists.remove(uri.as_str());
            if !self.told.pulls {
                send_list(desk.alloc(), wire, uri.as_str(), "[")?;
            }
        }
        Ok(())
    }

    // Sends the lists that are others now, and takes them.
    fn take_lists<R: Source + Drop, W: Sink + Drop>(
        &mut self,
        alloc: Global,
        wire: &mut Wire<R, W>,
        lists: BTreeMap<String, String>,
    ) -> Result<(), Unsent> {
        for (uri, list) in lists {
            let is_sent = match self.told.lists.get(uri.as_str()) {
                Some(sent) => sent.as_str() == list.as_str(),
                None => false,
            };
            if !is_sent && !self.told.pulls {
                send_list(alloc, wire, uri.as_str(), list.as_str())?;
            }
            self.told.set_list(uri, list)?;
        }
        Ok(())
    }
}

fn send_list<R: Source + Drop, W: Sink + Drop>(
    alloc: Global,
    wire: &mut Wire<R, W>,
    uri: &str,
    list: &str,
) -> Result<(), Unsent> {
    let params = params_of(alloc, uri, list)?;
    wire.note(alloc, params.as_str())
}

// The parameters that say a list of diagnostics of a document. Its end is left out in the list.
fn params_of(alloc: Global, uri: &str, list: &str) -> Result<String, AllocError>
    ensures { IfOk result (λ params. string_bytes params ≡ spec.params_of uri.now list.now) }
{
    let mut out = String::new(alloc);
    push_text(alloc, &mut out, "{\"uri\":", uri)?;
    out.push_str(",\"diagnostics\":")?;
    out.push_str(list)?;
    out.push_str("]}")?;
    Ok(out)
}
