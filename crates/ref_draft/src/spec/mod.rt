//! How the keywords of a draft hold their subschemas.
ghost use Rattle.std.specs.Prelude.{◌≡◌, codes, if◌then◌else◌};
ghost use Rattle.std.specs.Str.{bytes_eq};
ghost use Rattle.ref_draft.specs.declared.spec.Holding.TheVariants as how;

pub mod children;
pub(crate) mod columns;
pub(crate) mod draft201909;
pub(crate) mod draft202012;
pub(crate) mod draft4;
pub(crate) mod draft6;
pub(crate) mod draft7;
pub(crate) mod ids;
pub(crate) mod known;
pub(crate) mod scan;
pub mod walk;

/// How the value of a keyword holds subschemas.
#[derive(Clone, Copy)]
pub(crate) enum Holding {
    /// The value is one.
    Whole,
    /// The value is one where it is an object.
    WholeObject,
    /// Each element is one, where the value is an array.
    Elements,
    /// Each member is one, where the value is an object.
    Members,
    /// Each element is one where the value is an array, else the value is one.
    ElementsOrWhole,
    /// Each member that is an object is one, where the value is an object.
    ObjectMembers,
    /// There are none.
    Nothing,
}

// How a keyword of a draft before 2020-12 holds its subschemas, beside those that hold them in one way alone.
fn items_or_dependencies(keyword: &str) -> Holding
    ensures { result ≡ (if bytes_eq keyword.now (codes "items") then how.ElementsOrWhole
        else (if bytes_eq keyword.now (codes "dependencies") then how.ObjectMembers
        else how.Nothing)) }
{
    match keyword {
        "items" => Holding::ElementsOrWhole,
        "dependencies" => Holding::ObjectMembers,
        _ => Holding::Nothing,
    }
}
