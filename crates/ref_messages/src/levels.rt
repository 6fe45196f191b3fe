//! Levels that rules are set to.
ghost use Rattle.std.specs.Prelude.{◌≡◌, map};
ghost use Rattle.ref_messages.specs.Levels.{level_by};
ghost use Rattle.ref_messages.specs.Views.{chosen_of};

use crate::message::Level;

/// A rule that is set to a level, or off.
#[derive(Clone, Copy, Drop)]
pub struct Chosen<'r> {
    /// The name of the rule, as `missing-document`.
    pub code: &'r str,
    /// Its level; `None`: it is off.
    pub level: Option<Level>,
}

impl<'r> Chosen<'r> {
    /// What a text of the form `RULE=LEVEL` sets, with `error`, `warning`, `note` or `off` as its level; `None` where it has another form. Whether
    /// there is such a rule isn't asked.
    pub fn parse(text: &'r str) -> Option<Chosen<'r>> {
        let (code, level) = text.split_once('=')?;
        let level = match level {
            "error" => Some(Level::Error),
            "warning" => Some(Level::Warning),
            "note" => Some(Level::Note),
            "off" => None,
            _ => return None,
        };
        Some(Chosen { code, level })
    }
}

/// The level that findings of a rule have by these choices, of which the last one of a rule counts; `None` where they aren't listed. `own` is the level before them. A rule
/// that isn't among them keeps its own level. A step for each choice.
pub fn level_in(choices: &[Chosen<'_>], code: &str, own: Option<Level>) -> Option<Level>
    ensures value { result ≡ level_by (map chosen_of choices.now) code.now own }
{
    let mut level = own;
    for chosen in choices {
        if chosen.code == code {
            level = chosen.level;
        }
    }
    level
}
