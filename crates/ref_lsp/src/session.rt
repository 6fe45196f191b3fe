//! What of a server goes on when its configuration is read again.
use crate::desk::{Desk, OpenText};
use crate::shown::Told;
use ref_protocol::encoding::Encoding;
use std::alloc::Global;
use std::mem::swap;

/// What of a server goes on when its configuration is read again: what the client said and was told.
#[derive(Drop)]
pub struct Session {
    told: Told,
    encoding: Encoding,
    is_plain: bool,
    takes_related: bool,
    takes_actions: bool,
    folders: Vec<String>,
    open: Vec<OpenText>,
}

impl Session {
    /// One in which nothing was said.
    pub fn new(alloc: Global) -> Session {
        Session {
            told: Told::new(alloc),
            encoding: Encoding::Utf16,
            is_plain: false,
            takes_related: false,
            takes_actions: false,
            folders: Vec::new(alloc),
            open: Vec::new(alloc),
        }
    }

    /// The path of the client's first folder, where it has one.
    pub fn folder(&self) -> Option<&str> {
        match self.folders.first() {
            Some(folder) => Some(folder.as_str()),
            None => None,
        }
    }

    // Puts it in place of what a desk has, and that in place of it.
    pub(crate) fn exchange(&mut self, desk: &mut Desk<'_>, told: &mut Told) {
        swap(&mut self.told, told);
        swap(&mut self.encoding, &mut desk.encoding);
        swap(&mut self.is_plain, &mut desk.is_plain);
        swap(&mut self.takes_related, &mut desk.takes_related);
        swap(&mut self.takes_actions, &mut desk.takes_actions);
        swap(&mut self.folders, &mut desk.folders);
        swap(&mut self.open, &mut desk.open);
        told.is_fresh = false;
        self.told.is_fresh = false;
    }
}
