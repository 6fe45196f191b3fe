//! Why a call has no result.
ghost use Rattle.std.specs.Prelude.{◌≡◌};
ghost use Rattle.ref_json.specs.declared.stop.Stop.TheVariants.{Memory};

use std::alloc::{AllocError, AllocFailed};

/// Memory was refused, or there is an error of the call's own.
#[derive(Drop)]
pub enum Stop<E> {
    /// Memory ran out.
    Memory,
    /// The call's own error.
    Because(E),
}

impl<E> From<AllocError> for Stop<E> {
    ghost from_gives = { λ _ e. e ≡ Memory };

    fn from(_refused: AllocError) -> Stop<E> {
        Stop::Memory
    }
}

impl<T: Drop, E> From<AllocFailed<T>> for Stop<E> {
    ghost from_gives = { λ _ e. e ≡ Memory };

    fn from(_refused: AllocFailed<T>) -> Stop<E> {
        Stop::Memory
    }
}
