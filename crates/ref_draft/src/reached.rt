//! What the segments of a pointer lead to, read one after another.
ghost use Rattle.std.specs.Prelude.{◌≡◌, ℕ};
ghost use Rattle.ref_draft.specs.declared.draft.Draft.{Draft as Version};
ghost use Rattle.ref_paths.specs.Path.{Key, Index};
ghost use Rattle.ref_draft.specs.Reached.{accepts_at, reached_after, reached_under};

use crate::draft::Draft;
use crate::spec::Holding;

/// What the segments of a pointer lead to from where the base last changed, as far as [`Draft::rebases`] asks for it. It
/// takes the place of a list of them where they are read one after another.
#[derive(Clone, Copy)]
pub enum Reached {
    /// A schema, as where no segment was read yet.
    Schema,
    /// An array or object of schemas.
    Schemas,
    /// What is below `items` or `dependencies` before 2020-12.
    BelowItems,
    /// None of these, whatever segments follow.
    Other,
}

impl Reached {
    /// What is under a key. It takes no memory: the key is compared with keywords of the draft.
    pub fn key(self, draft: Draft, key: &str) -> Reached
        ensures value { result ≡ reached_after draft self (Key key.now) }
    {
        match self {
            Reached::Schema => Reached::under(draft.holding(key)),
            Reached::Schemas => Reached::Schema,
            Reached::BelowItems | Reached::Other => self,
        }
    }

    /// What is at an index. It takes no memory.
    pub fn index(self) -> Reached
        ensures value { (d : Version) (index : ℕ) → result ≡ reached_after d self (Index index) }
    {
        match self {
            Reached::Schemas => Reached::Schema,
            Reached::Schema | Reached::BelowItems | Reached::Other => self,
        }
    }

    /// Whether an identifier there may change the base, where it is in an object or not. It takes no memory.
    pub fn accepts(self, is_object: bool) -> bool
        ensures value { result ≡ accepts_at is_object self }
    {
        match self {
            Reached::Schema => true,
            Reached::BelowItems => is_object,
            Reached::Schemas | Reached::Other => false,
        }
    }

    // What is under a keyword that holds its subschemas so.
    fn under(holding: Holding) -> Reached
        ensures { result ≡ reached_under holding }
    {
        match holding {
            Holding::Whole | Holding::WholeObject => Reached::Schema,
            Holding::Elements | Holding::Members => Reached::Schemas,
            Holding::ElementsOrWhole | Holding::ObjectMembers => Reached::BelowItems,
            Holding::Nothing => Reached::Other,
        }
    }
}
