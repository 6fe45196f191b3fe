//! Why a request gets no result.
ghost use Rattle.std.specs.Prelude.{◌≡◌};
ghost use Rattle.ref_protocol.specs.Refusals as spec;

use std::alloc::AllocError;

/// Why a request gets no result: the codes of JSON-RPC 2.0, 5.1, and of the protocol.
#[derive(Clone, Copy, Debug, Drop, PartialEq, Eq)]
pub enum Refusal {
    /// The content is no JSON.
    NoJson,
    /// It is no request.
    NoRequest,
    /// No such method is there.
    NoMethod,
    /// The parameters are others than the method has.
    NoParameters,
    /// Nothing was initialized yet.
    NotInitialized,
    /// The server was shut down.
    AfterShutdown,
    /// Memory ran out.
    Memory,
    /// What is asked for can't be done, for this reason, which has neither quotes nor backslashes.
    Failed(&'static str),
}

impl Refusal {
    /// Its code.
    pub fn code(self) -> &'static str
        ensures value { result.now ≡ spec.code_of self }
    {
        match self {
            Refusal::NoJson => "-32700",
            Refusal::NoRequest | Refusal::AfterShutdown => "-32600",
            Refusal::NoMethod => "-32601",
            Refusal::NoParameters => "-32602",
            Refusal::NotInitialized => "-32002",
            Refusal::Memory => "-32603",
            Refusal::Failed(_) => "-32803",
        }
    }

    /// What it says.
    pub fn text(self) -> &'static str
        ensures value { result.now ≡ spec.text_of self }
    {
        match self {
            Refusal::NoJson => "The content is not JSON",
            Refusal::NoRequest => "The content is not a request",
            Refusal::NoMethod => "No such method",
            Refusal::NoParameters => "The parameters are not those of the method",
            Refusal::NotInitialized => "The server is not initialized",
            Refusal::AfterShutdown => "The server is shut down",
            Refusal::Memory => "Out of memory",
            Refusal::Failed(why) => why,
        }
    }
}

impl From<AllocError> for Refusal {
    ghost use Rattle.std.specs.Prelude.{◌≡◌};
    ghost use Rattle.ref_protocol.specs.declared.refusal.Refusal.TheVariants.{Memory};

    ghost from_gives = { λ _ e. e ≡ Memory };

    fn from(_error: AllocError) -> Refusal {
        Refusal::Memory
    }
}
