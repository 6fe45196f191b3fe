//! Laws and rows of the definitions. Each function is empty: its contract states the law, and the check proves it.
ghost use Rattle.std.specs.Prelude.{◌≡◌};
ghost use Rattle.ref_definitions.specs.Fault.{Fault, fault_text};
ghost use Rattle.ref_error.specs.Errors.{error_text, SaysFault};
ghost use Rattle.ref_error.specs.Rows.{TextRows, FaultRows};

use crate::error::Error;

/// An error that says a fault displays the text of that fault.
pub fn errors_say_faults()
    ensures law { (error : Error) (fault : Fault) → SaysFault error fault
        → error_text error ≡ fault_text fault }
{}

/// The worked rows of the texts of errors.
pub fn text_rows()
    ensures rows { TextRows }
{}

/// The worked rows of the faults that errors say.
pub fn fault_rows()
    ensures rows { FaultRows }
{}
