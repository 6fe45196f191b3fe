//! Messages with what to do about them.
use crate::beside::beside;
use crate::opened::Opened;
use ref_findings::Problem;
use ref_messages::Message;
use ref_workspace::Describer;
use std::alloc::AllocError;

/// The message on the finding that is listed at a place, from 0, with what to do: to name a file that is there, where the missing
/// document is one.
pub fn message_at<'d>(
    rt: &HostRuntime,
    opened: &Opened<'_>,
    describer: &mut Describer<'_, 'd>,
    place: usize,
) -> Result<Option<Message<'d>>, AllocError> {
    let Some(mut message) = describer.message(place)? else {
        return Ok(None);
    };
    match help_at(rt, opened, describer, place) {
        Ok((help, is_beside)) => {
            message.help = help;
            if is_beside {
                message.suggestion = None;
            }
            Ok(Some(message))
        }
        Err(error) => {
            drop(message);
            Err(error)
        }
    }
}

// What to do about a finding, and whether it is to name a file that is there, so that nothing else is meant.
fn help_at(
    rt: &HostRuntime,
    opened: &Opened<'_>,
    describer: &mut Describer<'_, '_>,
    place: usize,
) -> Result<(Option<String>, bool), AllocError> {
    if let Some(finding) = describer.finding(place) {
        if let Some(Problem::MissingDocument { uri }) = finding.problem.plain() {
            if let Some(path) = beside(rt, opened, finding.source, uri.as_str())? {
                let help = ["--with ", path.as_str()].join(rt.alloc(), "")?;
                return Ok((Some(help), true));
            }
        }
    }
    Ok((describer.help(place)?, false))
}
