//! What is wrong with a table that is no configuration.
ghost use Rattle.std.specs.Prelude.{◌≡◌, map, string_bytes};
ghost use Rattle.ref_configuration.specs.declared.fault.Stop.TheVariants.{Memory};
ghost use Rattle.ref_configuration.specs.Members as spec;
ghost use Rattle.ref_configuration.specs.View.{keys_of, where_of};
ghost use Rattle.ref_configuration.specs.inner.Answers.{IsStop};

use std::alloc::{AllocError, Global};

// The tables that a configuration has.
#[derive(Clone, Copy, Drop)]
pub(crate) enum Section {
    // All of it.
    Whole,
    // [map]
    Map,
    // [rules]
    Rules,
    // [[override]]
    Override,
    // [override.rules]
    OverrideRules,
}

impl Section {
    // The keys that lead there.
    pub(crate) fn keys(self) -> &'static [&'static str]
        ensures { map (λ key. key.now) result.now ≡ keys_of self }
    {
        match self {
            Section::Whole => &[],
            Section::Map => &["map"],
            Section::Rules => &["rules"],
            Section::Override => &["override"],
            Section::OverrideRules => &["override", "rules"],
        }
    }
}

// A table: which, and of those of overrides the number of the override, from 0.
#[derive(Clone, Copy, Drop)]
pub(crate) struct At {
    pub(crate) section: Section,
    pub(crate) item: usize,
}

impl At {
    pub(crate) const WHOLE: At = At {
        section: Section::Whole,
        item: 0,
    };

    pub(crate) const MAP: At = At {
        section: Section::Map,
        item: 0,
    };

    pub(crate) const RULES: At = At {
        section: Section::Rules,
        item: 0,
    };
}

// What is wrong with a member of a table.
#[derive(Drop)]
pub(crate) struct Fault {
    pub(crate) at: At,
    pub(crate) name: String,
    pub(crate) text: String,
}

// Why a table is no configuration, or that memory ran out.
#[derive(Drop)]
pub(crate) enum Stop {
    Wrong(Fault),
    Memory,
}

impl From<AllocError> for Stop {
    ghost from_gives = { λ _ stop. stop ≡ Memory };

    fn from(_error: AllocError) -> Stop {
        Stop::Memory
    }
}

// What is wrong with a member, said in these words.
pub(crate) fn wrong(alloc: Global, at: At, name: &str, why: &str) -> Stop
    ensures { IsStop result (spec.fault_at (where_of at) name.now why.now) }
{
    match String::from_str(alloc, why) {
        Ok(text) => wrong_in(alloc, at, name, text),
        Err(_) => Stop::Memory,
    }
}

// The same with words that are made for it.
pub(crate) fn wrong_in(alloc: Global, at: At, name: &str, text: String) -> Stop
    ensures { IsStop result (spec.fault_at (where_of at) name.now (string_bytes text)) }
{
    match String::from_str(alloc, name) {
        Ok(name) => Stop::Wrong(Fault { at, name, text }),
        Err(_) => Stop::Memory,
    }
}
