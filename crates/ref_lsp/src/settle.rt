//! What came, went or changed is taken in: what the documents want from maps, and files of YAML that they refer to.
use crate::desk::Desk;
use crate::mapped::{Mapped, MappedFile, absolute};
use ref_command_line::say_failures;
use ref_files::BrokenFile;
use ref_findings::Problem;
use ref_workspace::{Document, Workspace};
use std::alloc::{AllocError, Global};
use std::collections::{BTreeMap, BTreeSet};

impl Desk<'_> {
    /// Takes in what came, went or changed.
    pub(crate) fn settle(&mut self) -> Result<(), AllocError> {
        if self.is_stale {
            self.reopen()?;
        }
        if self.is_moved {
            self.take_in()?;
            if self.release()? {
                self.take_in()?;
            }
        }
        self.is_stale = false;
        self.is_moved = false;
        Ok(())
    }

    // Takes in what the documents want from maps, and the files of YAML that they refer to.
    fn take_in(&mut self) -> Result<(), AllocError> {
        self.retrieve()?;
        self.adopt()?;
        self.sum_up()
    }

    // Passes those files of YAML over whose roots don't say any more what they are, and which nothing refers to any more. Whether there are any.
    fn release(&mut self) -> Result<bool, AllocError> {
        let strays = self.strays()?;
        let is_any = !strays.is_empty();
        for number in strays {
            self.pass_over(number)?;
        }
        Ok(is_any)
    }

    // The numbers of those documents, the greatest first: none where more may be referred to than is noted. What one of them refers to doesn't
    // count. One step for each reference, where one of the documents may be such.
    fn strays(&self) -> Result<Vec<usize>, AllocError> {
        let alloc = self.alloc();
        let mut numbers = Vec::new(alloc);
        if self.summaries.list.iter().any(|summary| summary.is_open) {
            return Ok(numbers);
        }
        let mut strays = BTreeMap::new(alloc);
        let mut waiting = Vec::new(alloc);
        for number in 0..self.workspace.documents().len() {
            if self.is_unmarked(number) {
                strays.insert(self.uri_text(number)?, number)?;
            }
        }
        if strays.is_empty() {
            return Ok(numbers);
        }
        for number in 0..self.workspace.documents().len() {
            if !self.is_unmarked(number) {
                waiting.push(number)?;
            }
        }
        for _ in 0..u64::MAX {
            if strays.is_empty() {
                break;
            }
            let Some(number) = waiting.pop() else {
                break;
            };
            self.keep_wanted(number, &mut strays, &mut waiting)?;
        }
        for (_, number) in strays {
            numbers.push(number)?;
        }
        numbers.sort()?;
        numbers.reverse();
        Ok(numbers)
    }

    // The URI of the document with a number.
    fn uri_text(&self, number: usize) -> Result<String, AllocError> {
        match self.workspace.uri(number) {
            Some(uri) => String::from_str(self.alloc(), uri.as_str()),
            None => Ok(String::new(self.alloc())),
        }
    }

    // Takes those documents that the one with a number may refer to from the strays, and adds them to those whose references are looked at.
    fn keep_wanted(
        &self,
        number: usize,
        strays: &mut BTreeMap<String, usize>,
        waiting: &mut Vec<usize>,
    ) -> Result<(), AllocError> {
        let Some(summary) = self.summaries.list.get(number) else {
            return Ok(());
        };
        for uri in &summary.refers {
            if let Some(wanted) = strays.remove(uri.as_str()) {
                waiting.push(wanted)?;
            }
        }
        Ok(())
    }

    // Retrieves from maps what the documents want.
    pub(crate) fn retrieve(&mut self) -> Result<(), AllocError> {
        if self.maps.is_empty() {
            return Ok(());
        }
        self.summaries.note_all();
        self.retrieve_mapped()?;
        say_failures(self.rt, &self.maps.take_failures());
        for file in self.maps.take_broken() {
            let BrokenFile { uri, path, text } = file;
            let name = absolute(self.rt, path)?;
            self.workspace.add_retrieved(Document { name, uri, text })?;
        }
        self.place_retrieved()
    }

    // Retrieves them, and gives each that has a text of its own the name and the text of its file.
    fn retrieve_mapped(&mut self) -> Result<(), AllocError> {
        let alloc = self.rt.alloc();
        let mapped = Mapped::new(self.rt, &self.maps, self.open.as_slice())?;
        self.workspace.retrieve(alloc, &mapped)?;
        for number in self.workspace.opened()..self.workspace.documents().len() {
            if let Some(file) = file_of(alloc, &self.workspace, &mapped, number)? {
                let MappedFile { path, format, text } = file;
                self.workspace.set_file(number, path, format, text);
            }
        }
        Ok(())
    }

    // Opens those files that were passed over and are referred to.
    fn adopt(&mut self) -> Result<(), AllocError> {
        for _ in 0..u64::MAX {
            if self.passed.is_empty() || !self.may_want()? {
                break;
            }
            let wanted = self.wanted()?;
            if wanted.is_empty() {
                break;
            }
            for place in wanted {
                if place < self.passed.len() {
                    let file = self.passed.remove(place);
                    self.enter(file)?;
                }
            }
            self.place_rest()?;
        }
        Ok(())
    }

    // Finds the documents of those open texts that had none.
    fn place_rest(&mut self) -> Result<(), AllocError> {
        for index in 0..self.open.len() {
            let has_none = self
                .open
                .get(index)
                .is_some_and(|open| open.number.is_none());
            if has_none {
                self.place(index)?;
            }
        }
        Ok(())
    }

    // Whether one of them may be referred to.
    fn may_want(&mut self) -> Result<bool, AllocError> {
        let alloc = self.alloc();
        self.sum_up()?;
        let mut uris = BTreeSet::new(alloc);
        for passed in &self.passed {
            uris.insert(String::from_str(alloc, passed.uri.as_str())?)?;
        }
        Ok(self.summaries.refer_to_any(&uris))
    }

    // The places of those that are referred to, the last first.
    fn wanted(&self) -> Result<Vec<usize>, AllocError> {
        let alloc = self.alloc();
        let report = self.workspace.full_report(alloc)?;
        let mut wanted = Vec::new(alloc);
        for passed in 0..self.passed.len() {
            let place = self.passed.len().saturating_sub(passed).saturating_sub(1);
            if let Some(file) = self.passed.get(place) {
                for finding in &report.findings {
                    if let Some(Problem::MissingDocument { uri }) = finding.problem.plain() {
                        if uri.as_str() == file.uri.as_str() {
                            wanted.push(place)?;
                            break;
                        }
                    }
                }
            }
        }
        Ok(wanted)
    }
}

// The file of the document with a number, which was retrieved.
fn file_of(
    alloc: Global,
    workspace: &Workspace,
    mapped: &Mapped<'_, '_, '_>,
    number: usize,
) -> Result<Option<MappedFile>, AllocError> {
    match workspace.uri(number) {
        Some(uri) => mapped.file(alloc, uri.as_str()),
        None => Ok(None),
    }
}
