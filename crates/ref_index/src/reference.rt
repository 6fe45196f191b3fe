//! URIs that are shared.
ghost use Rattle.std.specs.Prelude.{◌≡◌, IfOk};

use ref_uri::Uri;
use std::alloc::{AllocError, Global};
use std::rc::Rc;

/// The URI, shared from here on. Takes memory for the handle.
pub fn shared(alloc: Global, uri: Uri) -> Result<Rc<Uri>, AllocError>
    ensures value { IfOk result (λ u. u.value ≡ uri) }
{
    Ok(Rc::new(alloc, uri)?)
}
