//! References that a bundle has in place of others.
use crate::editing::{Checked, Editing, Made, surveyed, texts_of};
use crate::opened::Opened;
use ref_command_line::Stop;
use ref_edits::{Edit, Unmade, identified_references};
use ref_files::DocumentText;
use ref_messages::Plain;
use ref_positions::Position;
use ref_workspace::World;
use ref_workspace::world::world_of;
use std::alloc::{AllocError, Global};

/// Names documents by their identifiers where the first one, or what it needs, refers to them by the URIs of their files: so
/// that a bundle, in which a document has its identifier alone, can be made. Answers a line for each text that becomes another
/// one, to be said once the bundle is written. Where a reference would lead elsewhere, or a text can't be changed, all stays as
/// it is, and there is no line. Nothing is written, and nothing is said.
pub(crate) fn name_by_identifiers(
    rt: &HostRuntime,
    opened: &mut Opened<'_>,
) -> Result<Vec<String>, Stop> {
    let Renamed { texts, lines } = named(rt, &*opened)?;
    for (source, text) in texts {
        replace(rt.alloc(), opened, source, text)?;
    }
    Ok(lines)
}

// The texts of documents after, each with the number of what was read, and a line for each text in them that is another one.
#[derive(Drop)]
struct Renamed {
    texts: Vec<(usize, String)>,
    lines: Vec<String>,
}

fn replace(
    alloc: Global,
    opened: &mut Opened<'_>,
    source: usize,
    text: String,
) -> Result<(), AllocError> {
    let format = opened.workspace.format(source);
    let text = DocumentText::new(alloc, format, text)?;
    opened.workspace.replace(source, text);
    Ok(())
}

fn named(rt: &HostRuntime, opened: &Opened<'_>) -> Result<Renamed, Stop> {
    let alloc = rt.alloc();
    let trees = opened.workspace.mended(alloc)?;
    let world = world_of(alloc, &opened.workspace, trees.as_slice());
    match world {
        Ok(world) => named_in(rt, opened, &world),
        Err(error) => {
            let stop = error.is_memory();
            drop(error);
            if stop {
                return Err(Stop::Memory);
            }
            Ok(nothing(alloc))
        }
    }
}

fn nothing(alloc: Global) -> Renamed {
    Renamed {
        texts: Vec::new(alloc),
        lines: Vec::new(alloc),
    }
}

fn named_in(rt: &HostRuntime, opened: &Opened<'_>, world: &World<'_>) -> Result<Renamed, Stop> {
    let alloc = rt.alloc();
    let texts = texts_of(alloc, opened, world, true)?;
    let survey = surveyed(alloc, world)?;
    let editing = Editing {
        rt,
        opened,
        world,
        survey: &survey,
        texts: texts.as_slice(),
    };
    let mut after = nothing(alloc);
    let Some(made) = made_by(&editing)? else {
        return Ok(after);
    };
    for edit in made.edits {
        if let Some(source) = world.sources.get(edit.document) {
            push_lines(&mut after.lines, &editing, &edit)?;
            let Edit { text, .. } = edit;
            push(&mut after.texts, *source, text)?;
        }
    }
    Ok(after)
}

fn push(texts: &mut Vec<(usize, String)>, source: usize, text: String) -> Result<(), AllocError> {
    texts.push((source, text))?;
    Ok(())
}

// What is changed, where something is, and all references lead where they led.
fn made_by(editing: &Editing<'_, '_, '_, '_, '_, '_, '_>) -> Result<Option<Made>, Stop> {
    match checked_by(editing) {
        Ok(made) => Ok(made),
        Err(Unmade::Memory) => Err(Stop::Memory),
        Err(Unmade::Refused(refusal)) => {
            drop(refusal);
            Ok(None)
        }
    }
}

fn checked_by(editing: &Editing<'_, '_, '_, '_, '_, '_, '_>) -> Result<Option<Made>, Unmade> {
    let plan = identified_references(editing.rt.alloc(), &editing.given())?;
    if plan.changes.is_empty() {
        return Ok(None);
    }
    match editing.checked(Ok(plan))? {
        Checked::Same(made) => Ok(Some(made)),
        Checked::Differs(told) => {
            drop(told);
            Ok(None)
        }
    }
}

// Adds a line for each text that is replaced in a document's, with its line and column.
fn push_lines(
    lines: &mut Vec<String>,
    editing: &Editing<'_, '_, '_, '_, '_, '_, '_>,
    edit: &Edit,
) -> Result<(), AllocError> {
    let Some(Some(written)) = editing.texts.get(edit.document) else {
        return Ok(());
    };
    let alloc = editing.rt.alloc();
    let name = editing.name(edit.document);
    let mut at = Position::start(written.text);
    for part in &edit.parts {
        at = at.moved_to(part.start);
        let (line, column) = (at.line(), at.column());
        let old = written.text.get(part.start..part.end).unwrap_or("");
        lines.push(format!(in alloc;
            "{}:{line}:{column}: {} is {} in the bundle",
            Plain(name),
            Plain(old),
            Plain(part.text.as_str())
        )?)?;
    }
    Ok(())
}
