//! The further places after a change, by where they are.
ghost use Rattle.std.specs.Prelude.{◌≡◌, ◌++◌, ℕ, List, [], ◌∷◌, map, flat_map, option_map, bytes_eq, if◌then◌else◌, slice_get, string_bytes, IfOk, OnOk};
ghost use Rattle.ref_reach.specs.Views.{place_of};
ghost use Rattle.ref_further.specs.Surveyed.{surveyed};
ghost use Rattle.ref_comparison.specs.inner.Grouped as spec;
ghost use Rattle.ref_comparison.specs.inner.Grouped.{Lists, list_of, lists_in, placed_at, group_in, places_in, IsGrouped};

use ref_further::Survey;
use ref_index::segments_of;
use ref_parts::pointer_of;
use ref_reach::Place;
use std::alloc::{AllocError, Global};
use std::collections::BTreeMap;

/// A list of places of a survey.
#[derive(Clone, Copy, Drop)]
pub(crate) enum Which {
    Own,
    Described,
    Led,
}

/// A place of a survey: in which list it is, and its number there.
#[derive(Drop)]
pub(crate) struct Number {
    pub list: Which,
    pub index: usize,
}

/// The places of a survey, and the numbers of those at each address.
#[derive(Drop)]
pub(crate) struct After<'q, 'a> {
    pub own: &'q [Place<'a>],
    pub described: &'q [Place<'a>],
    pub led: &'q [Place<'a>],
    pub numbers: BTreeMap<String, Vec<Number>>,
}

/// The address of a value as a text: the number of its document, and its pointer there.
pub(crate) fn address_text(
    alloc: Global,
    document: usize,
    pointer: &str,
) -> Result<String, AllocError>
    ensures value { IfOk result
        (λ text. string_bytes text
        ≡ spec.address_text (record { document = document; pointer = pointer.now })) }
{
    let mut text = format!(in alloc; "{document}")?;
    text.push_str(pointer)?;
    Ok(text)
}

// The address of a place as a text.
fn text_at(alloc: Global, place: &Place<'_>) -> Result<String, AllocError>
    ensures { IfOk result (λ text. string_bytes text ≡ spec.text_at (place_of place.now)) }
{
    let path = segments_of(alloc, &place.path)?;
    let pointer = pointer_of(alloc, path.as_slice())?;
    address_text(alloc, place.document, pointer.as_str())
}

// Adds a number to those at an address.
fn add_number(
    numbers: &mut BTreeMap<String, Vec<Number>>,
    text: String,
    number: Number,
) -> Result<(), AllocError>
    ensures { OnOk result
        ((q : List ℕ) → spec.numbers_at numbers.new q
        ≡ spec.numbers_at numbers.old q
        ++ (if bytes_eq q (string_bytes text) then number ∷ [] else [])) }
{
    numbers.entry(text)?.or_default().push(number)?;
    Ok(())
}

// Adds the numbers of the places of a list to those at their addresses.
fn add_all(
    alloc: Global,
    numbers: &mut BTreeMap<String, Vec<Number>>,
    list: Which,
    places: &[Place<'_>],
) -> Result<(), AllocError>
    ensures { OnOk result
        ((lists : Lists) → list_of lists list ≡ map place_of places.now → (q : List ℕ)
        → group_in lists numbers.new q
        ≡ group_in lists numbers.old q ++ flat_map (placed_at q) (map place_of places.now)) }
{
    for (index, place) in places.iter().enumerate() {
        let text = text_at(alloc, place)?;
        add_number(numbers, text, Number { list, index })?;
    }
    Ok(())
}

/// The places of a survey.
pub(crate) fn after_of<'q, 'a>(
    alloc: Global,
    survey: &'q Survey<'a>,
) -> Result<After<'q, 'a>, AllocError>
    ensures places { IfOk result (λ after. places_in after ≡ surveyed survey.now) }
    ensures grouped { IfOk result IsGrouped }
{
    let own = survey.own();
    let described = survey.described();
    let led = survey.led();
    let mut numbers = BTreeMap::new(alloc);
    add_all(alloc, &mut numbers, Which::Own, own)?;
    add_all(alloc, &mut numbers, Which::Described, described)?;
    add_all(alloc, &mut numbers, Which::Led, led)?;
    Ok(After {
        own,
        described,
        led,
        numbers,
    })
}

/// The numbers of those at an address. A look-up.
pub(crate) fn numbers_at<'s>(after: &'s After<'_, '_>, text: &str) -> &'s [Number]
    ensures value { result.now ≡ spec.numbers_at after.now.numbers text.now }
{
    let Some(numbers) = after.numbers.get(text) else {
        return &[];
    };
    numbers.as_slice()
}

/// The place with a number.
pub(crate) fn place_with<'q, 'a>(after: &After<'q, 'a>, number: &Number) -> Option<&'q Place<'a>>
    ensures value { option_map (λ p. place_of p.now) result
        ≡ slice_get (list_of (lists_in after.now) number.now.list) number.now.index }
{
    match number.list {
        Which::Own => after.own.get(number.index),
        Which::Described => after.described.get(number.index),
        Which::Led => after.led.get(number.index),
    }
}
