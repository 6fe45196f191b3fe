//! Files whose places and references aren't looked at.
use ref_files::{Fault, Format, leniencies_of};
use ref_messages::Plain;
use ref_workspace::{Document, Unplaced, lines_of};
use std::alloc::AllocError;

/// Says which files are neither JSON nor YAML, where and why, and returns whether one is none.
pub fn say_broken(rt: &HostRuntime, documents: &[Document]) -> bool {
    let mut is_any = false;
    for document in documents {
        if let Some(fault) = document.text.fault() {
            say_fault(rt, document, fault);
            is_any = true;
        }
    }
    is_any
}

/// Says what was read of files of YAML though YAML 1.2 doesn't have it.
pub fn say_leniencies(rt: &HostRuntime, documents: &[Document]) -> Result<(), AllocError> {
    for document in documents {
        if document.text.format == Format::Yaml {
            for told in &leniencies_of(rt.alloc(), document.text.text.as_str())? {
                say_fault(rt, document, told);
            }
        }
    }
    Ok(())
}

/// Says which texts under `$ref` are in no place, and so weren't looked at, and where.
pub fn say_unplaced(
    rt: &HostRuntime,
    documents: &[Document],
    list: &[Unplaced<'_>],
) -> Result<(), AllocError> {
    for (source, line, column, index) in &lines_of(rt.alloc(), documents, list)? {
        if let (Some(document), Some(unplaced)) = (documents.get(*source), list.get(*index)) {
            let _ = eprintln!(rt;
                "patchsard: {}:{line}:{column}: '{}' is under a $ref in no place, and was not looked at",
                Plain(document.name.as_str()),
                Plain(unplaced.text)
            );
        }
    }
    Ok(())
}

/// Says where and why a file has no value, or what else is to be said of its text.
pub fn say_fault(rt: &HostRuntime, document: &Document, fault: &Fault) {
    let _ = eprintln!(rt;
        "patchsard: {}:{}:{}: {}",
        Plain(document.name.as_str()),
        fault.line,
        fault.column,
        fault.text
    );
}
