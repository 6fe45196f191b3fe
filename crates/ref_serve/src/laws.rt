//! Laws of the definitions. Each function is empty: its contract states the law, and the check proves it.
ghost use Rattle.ref_serve.specs.Scopes.{FoundEndsWithItsScope, PlaceIsTheSame, ScopeStaysBehind};

/// Of a scope the innermost URI alone matters to a look-up without a fragment or by a JSON Pointer, and the others stay behind what is
/// put before it. So a caller may send that one alone.
pub fn scope_stays_behind()
    ensures law { ScopeStaysBehind }
    ensures place { PlaceIsTheSame }
{}

/// What is found has the scope that it is looked up from at its end. So where the scope of a call ends with a kept one, that of its
/// answer does too, and the URIs in front of it with its number are the whole.
pub fn found_ends_with_its_scope()
    ensures law { FoundEndsWithItsScope }
{}
