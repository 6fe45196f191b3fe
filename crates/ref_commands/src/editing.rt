//! Changes of files after which each reference leads where it led: how they are made, shown and refused.
use crate::opened::Opened;
use crate::together::{NewText, mark_of, replace_all};
use ref_command_line::{Console, Stop, say_of};
use ref_edits::{Edit, Given, Plan, Refusal, Told, Unmade, Written, difference_of, edits_of};
use ref_fixes::unified;
use ref_further::{Survey, survey_of};
use ref_messages::Plain;
use ref_workspace::World;
use std::alloc::{AllocError, Global};
use std::{fs, io};

/// A change that is made, and what it is called.
#[derive(Drop)]
pub(crate) struct Made {
    /// What is changed in the documents.
    pub plan: Plan,
    /// What that replaces in their texts.
    pub edits: Vec<Edit>,
}

/// Documents that are to be changed.
#[derive(Clone, Copy, Drop)]
pub(crate) struct Editing<'r, 'e, 's, 'm, 'w, 'd, 't> {
    pub rt: &'r HostRuntime,
    pub opened: &'e Opened<'m>,
    pub world: &'w World<'d>,
    pub survey: &'s Survey<'w>,
    pub texts: &'s [Option<Written<'t>>],
}

/// What references of the documents lead to, and the objects of descriptions.
pub(crate) fn surveyed<'w>(alloc: Global, world: &'w World<'_>) -> Result<Survey<'w>, AllocError> {
    survey_of(alloc, &world.registry)
}

/// The texts of the documents of a registry that may be changed, by their numbers: those of files that were given, and that of standard input where it may be.
pub(crate) fn texts_of<'e>(
    alloc: Global,
    opened: &'e Opened<'_>,
    world: &World<'_>,
    has_input: bool,
) -> Result<Vec<Option<Written<'e>>>, AllocError> {
    let mut texts = Vec::new(alloc);
    for number in 0..world.registry.documents().len() {
        let text = match world.sources.get(number) {
            Some(source) if has_input || opened.input != Some(*source) => {
                written_of(opened, *source)
            }
            Some(_) => None,
            None => None,
        };
        texts.push(text)?;
    }
    Ok(texts)
}

// The text of what was read with a number, where it is that of a file that was given or of standard input.
fn written_of<'e>(opened: &'e Opened<'_>, source: usize) -> Option<Written<'e>> {
    if opened.workspace.opened() <= source {
        return None;
    }
    let document = opened.workspace.documents().get(source)?;
    Some(Written {
        format: document.text.format,
        text: document.text.text.as_str(),
    })
}

/// The absolute path without links of a path that was given. Where nothing is there, that is said.
pub(crate) fn real_path(rt: &HostRuntime, path: &str) -> Result<String, Stop> {
    match fs::canonicalize(rt, path) {
        Ok(real) => Ok(real.into_string()),
        Err(error) if error.kind() == io::ErrorKind::OutOfMemory => Err(Stop::Memory),
        Err(error) => {
            say_of(rt, path, error);
            Err(Stop::Reported)
        }
    }
}

impl<'e, 's, 'w, 'd, 't> Editing<'_, 'e, 's, '_, 'w, 'd, 't> {
    /// The documents as they are given to `ref_edits`.
    pub fn given(&self) -> Given<'s, 'w, 'd, 't> {
        Given {
            registry: &self.world.registry,
            survey: self.survey,
            texts: self.texts,
            draft: self.opened.workspace.draft(),
        }
    }

    /// The number in the registry of the document that was read from a path, where one was.
    pub fn number_at(&self, path: &str) -> Option<usize> {
        let source = self
            .opened
            .paths
            .iter()
            .position(|own| own.as_str() == path)?;
        self.world.number(source)
    }

    /// The name of the document with a number.
    pub fn name(&self, document: usize) -> &'e str {
        match self.world.sources.get(document) {
            Some(source) => self.opened.workspace.name(*source),
            None => "",
        }
    }

    /// What a plan comes to, where it is one, and nothing differs after it: else why not is said, with the exit status.
    pub fn made(&self, name: &str, plan: Result<Plan, Unmade>) -> Result<Result<Made, u8>, Stop> {
        match self.checked(plan) {
            Ok(Checked::Same(made)) => Ok(Ok(made)),
            Ok(Checked::Differs(told)) => {
                self.say_told(&told)?;
                Ok(Err(1))
            }
            Err(Unmade::Memory) => Err(Stop::Memory),
            Err(Unmade::Refused(refusal)) => {
                self.say_refusal(name, &refusal)?;
                Ok(Err(status_of(&refusal)))
            }
        }
    }

    /// What a plan comes to, where it is one, or what differs after it.
    pub fn checked(&self, plan: Result<Plan, Unmade>) -> Result<Checked, Unmade> {
        let alloc = self.rt.alloc();
        let plan = plan?;
        let given = self.given();
        let edits = edits_of(alloc, &given, plan.changes.as_slice())?;
        match difference_of(alloc, &given, &plan, edits.as_slice())? {
            Some(told) => Ok(Checked::Differs(told)),
            None => Ok(Checked::Same(Made { plan, edits })),
        }
    }

    // Says why nothing is changed.
    fn say_refusal(&self, name: &str, refusal: &Refusal) -> Result<(), AllocError> {
        let (name, pointer) = match refusal {
            Refusal::Elsewhere { document, pointer } | Refusal::Fixed { document, pointer } => {
                (self.name(*document), pointer.as_str())
            }
            Refusal::Unlike { document } => (self.name(*document), ""),
            _ => (name, ""),
        };
        let why = if pointer.is_empty() {
            format!(in self.rt.alloc(); "nothing is changed: {}", Plain(refusal.text()))?
        } else {
            format!(in self.rt.alloc();
                "nothing is changed: the text at '{}' {}",
                Plain(pointer),
                Plain(refusal.text())
            )?
        };
        say_of(self.rt, name, why.as_str());
        Ok(())
    }

    // Says what would differ.
    fn say_told(&self, told: &Told) -> Result<(), AllocError> {
        let why = format!(in self.rt.alloc();
            "nothing is changed: of the place at '{}', {}",
            Plain(told.pointer.as_str()),
            Plain(told.text.as_str())
        )?;
        say_of(self.rt, self.name(told.document), why.as_str());
        if let Some(led) = &told.led {
            let _ = eprintln!(self.rt;
                "    now it leads to {}#{}",
                Plain(self.name(led.document)),
                Plain(led.pointer.as_str())
            );
        }
        if let Some(leads) = &told.leads {
            let _ = eprintln!(self.rt;
                "    then it would lead to {}#{}",
                Plain(self.name(leads.document)),
                Plain(leads.pointer.as_str())
            );
        }
        Ok(())
    }

    /// Prints what edits change in the lines of files, as a unified diff.
    pub fn print(&self, console: &mut Console<'_>, edits: &[Edit]) -> Result<(), Stop> {
        let alloc = self.rt.alloc();
        for edit in edits {
            let Some(Some(written)) = self.texts.get(edit.document) else {
                continue;
            };
            let name = self.name(edit.document);
            let lines = unified(alloc, name, written.text, edit.parts.as_slice())?;
            console.out.push_str(lines.as_str())?;
            console.pass()?;
        }
        Ok(())
    }

    /// The files that edits give other texts, where each has the text that was read still: else that is said, and there are none.
    pub fn new_texts(&self, edits: Vec<Edit>) -> Result<Option<Vec<NewText>>, Stop> {
        let mut files = Vec::new(self.rt.alloc());
        for edit in edits {
            match self.new_text(edit)? {
                Some(file) => push_text(&mut files, file)?,
                None => return Ok(None),
            }
        }
        Ok(Some(files))
    }

    fn new_text(&self, edit: Edit) -> Result<Option<NewText>, Stop> {
        let alloc = self.rt.alloc();
        let (Some(source), Some(Some(written))) = (
            self.world.sources.get(edit.document),
            self.texts.get(edit.document),
        ) else {
            return Ok(None);
        };
        let Some(path) = self.opened.paths.get(*source) else {
            return Ok(None);
        };
        let name = self.name(edit.document);
        let Some(mark) = mark_of(self.rt, name, path.as_str(), written.text)? else {
            return Ok(None);
        };
        let Edit { text, .. } = edit;
        Ok(Some(NewText {
            name: String::from_str(alloc, name)?,
            path: path.clone()?,
            mark,
            old: String::from_str(alloc, written.text)?,
            new: text,
        }))
    }

    /// Writes files, and says how many texts of each are others. Returns whether they are written.
    pub fn write(&self, files: &[NewText], counts: &[Count<'e>]) -> Result<bool, Stop> {
        if !replace_all(self.rt, files)? {
            return Ok(false);
        }
        self.say_counts(counts);
        Ok(true)
    }

    /// Says how many texts of each file are others.
    pub fn say_counts(&self, counts: &[Count<'e>]) {
        for count in counts {
            let _ = eprintln!(self.rt;
                "{}: {} {}",
                Plain(count.name),
                count.parts,
                if count.parts == 1 {
                    "change"
                } else {
                    "changes"
                }
            );
        }
    }

    /// How many texts of each file edits replace.
    pub fn counts(&self, edits: &[Edit]) -> Result<Vec<Count<'e>>, AllocError> {
        let mut counts = Vec::new(self.rt.alloc());
        for edit in edits {
            counts.push(Count {
                name: self.name(edit.document),
                parts: edit.parts.len(),
            })?;
        }
        Ok(counts)
    }
}

/// How many texts of a file are others.
#[derive(Clone, Copy, Drop)]
pub(crate) struct Count<'n> {
    /// What the file is called.
    pub name: &'n str,
    /// How many.
    pub parts: usize,
}

/// A change whose outcome was looked at.
#[derive(Drop)]
pub(crate) enum Checked {
    /// All references lead where they led.
    Same(Made),
    /// Something differs.
    Differs(Told),
}

// The exit status of a refusal: 3 where the text that was made isn't what it is to be.
fn status_of(refusal: &Refusal) -> u8 {
    match refusal {
        Refusal::Unlike { .. } => 3,
        _ => 1,
    }
}

fn push_text(files: &mut Vec<NewText>, file: NewText) -> Result<(), AllocError> {
    files.push(file)?;
    Ok(())
}
