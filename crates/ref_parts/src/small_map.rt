//! A map that holds its first pairs inline.
ghost use Rattle.std.specs.Prelude.{◌≡◌, Bool, ◌+◌, ◌<◌, ◌≤◌, ◌↔◌, None, IsTrue, IsOk, IfOk, OnOk, OnErr, MatchOption, [], length, option_copied, option_map, slice_get, slice_index_or, IsSome};
ghost use Rattle.std.specs.Borrow.{sem};
ghost use Rattle.std.specs.HashMap.{spare};
ghost use Rattle.std.specs.Map.{lookup};
ghost use Rattle.indexmap.specs.IndexMap.{insert_entry};
ghost use Rattle.indexmap.specs.Lends.{lends_index};
ghost use Rattle.ref_parts.specs.inner.Places.{lends_pair, lends_slot, lends_place};
ghost use Rattle.std.specs.Option.{UnwrapsOrElse};
ghost use Rattle.ref_parts.specs.inner.Slots.{pairs, EachOnce, IsPlaceOf, IsAt, entries_of, IsFormOf};
ghost use Rattle.ref_parts.specs.FiniteMap.{Puts, IsClone};

use arrayvec::ArrayVec;
use indexmap::IndexMap;
use std::alloc::{AllocError, Allocator, Global};
use std::fmt;
use std::hash::{BuildHasher, Hash};
use std::marker::Model;

/// What a map is looked up by: a reference to a key, or text where the keys are texts.
///
/// It is in the place of the Rust crate's `K: Borrow<Q>`: it is equal to the keys that it stands for, and hashes as they do.
pub trait BorrowedKey<K: Eq + Hash>: Copy {
    /// Whether it stands for a key.
    ghost is_for: { Self → K → Bool };

    /// Whether it stands for this key.
    fn is_for(&self, key: &K) -> bool
        ensures value { result ≡ is_for self.now key.now };

    /// The value in a hashed map at the key that it stands for: one look-up.
    fn find_in<'m, V>(&self, map: &'m IndexMap<K, V>) -> Option<&'m V>
        ensures value { option_copied result ≡ lookup (is_for self.now) map.now.entries };

    /// What stands for a key stands for the keys that are equal to it, and for no other.
    ghost respects_eq: { (q : Self) (x y : K) → IsTrue (is_for q x) → is_for q y ≡ K.eq x y };
}

impl<K: Eq + Hash> BorrowedKey<K> for &K {
    ghost is_for = { λ q. K.eq q.now };

    ghost respects_eq = { λ q. K.Eq.laws.congr q.now };

    fn is_for(&self, key: &K) -> bool {
        (*self).eq(key)
    }

    fn find_in<'m, V>(&self, map: &'m IndexMap<K, V>) -> Option<&'m V> {
        map.get(*self)
    }
}

impl BorrowedKey<String> for &str {
    ghost use Rattle.std.specs.Prelude.{bytes_eq, string_bytes};
    ghost use Rattle.std.specs.Cmp.Lexicographic.{nat_list_eq_equiv};

    ghost is_for = { λ q key. bytes_eq q.now (string_bytes key) };

    ghost respects_eq = { λ q x y. nat_list_eq_equiv.congr q.now (string_bytes x)
        (string_bytes y) };

    fn is_for(&self, key: &String) -> bool {
        *self == key.as_str()
    }

    fn find_in<'m, V>(&self, map: &'m IndexMap<String, V>) -> Option<&'m V> {
        map.get(*self)
    }
}

#[derive(Drop)]
enum Form<K: Eq + Hash, V, const N: usize> {
    Small(ArrayVec<Option<(K, V)>, N>),
    Large(IndexMap<K, V>),
}

/// A map from keys to values that is inline up to `N` keys, and hashed from `N` + 1 on.
///
/// Contracts see the list of its entries, which is read at a key.
#[derive(Drop)]
pub struct SmallMap<K: Eq + Hash, V, const N: usize> {
    form: Form<K, V, N>,
}

impl<K: Eq + Hash, V, const N: usize> Model for SmallMap<K, V, N> {
    ghost use Rattle.std.specs.Prelude.{List};

    ghost Value = { List (K × V) };

    ghost use Rattle.ref_parts.specs.inner.Slots.{entries_of, IsFormOf};

    ghost view = { λ m. entries_of m.form };

    ghost invariant = { λ m. IsFormOf K.eq N m.form };
}

impl<K: Eq + Hash, V, const N: usize> SmallMap<K, V, N> {
    /// An empty map. Takes no memory.
    pub fn new() -> Self
        ensures empty { result ≡ [] }
    {
        SmallMap {
            form: Form::Small(ArrayVec::new()),
        }
    }

    /// Whether the pairs are held inline, which they are exactly up to `N` keys.
    pub fn is_small(&self) -> bool
        ensures value { IsTrue result ↔ (length self.now ≤ N) }
    {
        matches!(&self.form, Form::Small(_))
    }

    /// The value at a key.
    ///
    /// Takes no memory. At most `N` comparisons while it is small, and one look-up from then on.
    pub fn get<Q: BorrowedKey<K>>(&self, key: Q) -> Option<&V>
        ensures value { option_copied result ≡ lookup (Q.is_for key) self.now }
    {
        match &self.form {
            Form::Small(slots) => value_in(slots.as_slice(), key),
            Form::Large(map) => key.find_in(map),
        }
    }
}

// The value in the first slot whose key it stands for.
fn value_in<K: Eq + Hash, V, Q: BorrowedKey<K>>(slots: &[Option<(K, V)>], key: Q) -> Option<&V>
    ensures { option_copied result ≡ lookup (Q.is_for key) (pairs slots.now) }
{
    for slot in slots {
        if let Some((k, value)) = slot {
            if key.is_for(k) {
                return Some(value);
            }
        }
    }
    None
}

impl<K: Eq + Hash + Drop, V: Drop, const N: usize> SmallMap<K, V, N> {
    ghost use Rattle.ref_parts.specs.Lent.{lends_value};

    /// Puts a value at a key, in the place of the one that is there. A new key comes after the others.
    ///
    /// Takes memory for a new key alone, when it grows past `N` keys and as the hashed map grows. Where there is none it is
    /// refused, the map is as it was, and the pair is dropped. At most `N` comparisons while it is small, and one look-up
    /// from then on.
    pub fn insert(&mut self, alloc: Global, key: K, value: V) -> Result<(), AllocError>
        ensures ok { OnOk result (Puts K.eq self.old self.new key value) }
        ensures err { OnErr result (self.new ≡ self.old) }
        ensures there { IsSome (lookup (K.eq key) self.old) → IsOk result }
        ensures inline { length self.old < N → IsOk result }
    {
        put(&mut self.form, alloc, key, value)?;
        Ok(())
    }

    /// The value at a key, to be written, which is a default where the key was missing.
    ///
    /// What is written through the answer is the key's value afterwards, and the other keys keep theirs. Takes memory as
    /// `insert` does where the key is missing, and else none. Where there is none it is refused, the map is as it was, and
    /// the key is dropped. While it is small, at most `N` comparisons where the key is there and `2 * N` where it is
    /// missing; from then on one look-up, and two.
    pub fn get_or_insert_default(&mut self, alloc: Global, key: K) -> Result<&mut V, AllocError>
    where
        V: Default,
        ensures* writes_back { sem 𝓛 (lends_value K.row V.row N.row K.Hash self.entry key result) }
        ensures value { IfOk result
            (λ value. UnwrapsOrElse (lookup (K.eq key) self.old) V.is_default value.now) }
        ensures there { IsSome (lookup (K.eq key) self.old) → IsOk result }
        ensures inline { length self.old < N → IsOk result }
    {
        let place = place_or_default(&mut self.form, alloc, key)?;
        Ok(value_at(&mut self.form, place))
    }
}

// The place of a key's pair, which is put there with a default where it was missing.
fn place_or_default<K: Eq + Hash + Drop, V: Default + Drop, const N: usize>(
    form: &mut Form<K, V, N>,
    alloc: Global,
    key: K,
) -> Result<usize, AllocError>
    requires { IsFormOf K.eq N form.old }
    ensures kept { IsFormOf K.eq N form.new }
    ensures place { IfOk result (IsAt K.eq key (entries_of form.new)) }
    ensures ok { OnOk result
        ((value : V) × UnwrapsOrElse (lookup (K.eq key) (entries_of form.old)) V.is_default value
        × (entries_of form.new ≡ insert_entry K.eq (entries_of form.old) key value)) }
    ensures err { OnErr result (entries_of form.new ≡ entries_of form.old) }
    ensures there { IsSome (lookup (K.eq key) (entries_of form.old)) → IsOk result }
    ensures inline { length (entries_of form.old) < N → IsOk result }
{
    match find(form, &key) {
        Some(place) => Ok(place),
        None => put(form, alloc, key, V::default()),
    }
}

// The place of the pair whose key is equal.
fn find<K: Eq + Hash, V, const N: usize>(form: &Form<K, V, N>, key: &K) -> Option<usize>
    requires { IsFormOf K.eq N form.now }
    ensures { MatchOption result (lookup (K.eq key.now) (entries_of form.now) ≡ None)
        (IsAt K.eq key.now (entries_of form.now)) }
{
    match form {
        Form::Small(slots) => place_of(slots.as_slice(), key),
        Form::Large(map) => map.get_index_of(key),
    }
}

impl<K: Eq + Hash + Clone + Drop, V: Clone + Drop, const N: usize> SmallMap<K, V, N> {
    /// A copy of the map, whose keys and values are clones of its keys and values, in the same order.
    ///
    /// Each clone of a key has to be equal to the key. Takes what memory those clones and a hashed map take, and is refused
    /// where there is none. Each key and each value is cloned once, and beside them the hashed map's room is copied: no key
    /// is hashed or compared.
    pub fn clone(&self) -> Result<Self, AllocError>
        requires { (x y : K) → K.is_clone x y → IsTrue (K.eq x y) }
        ensures clones { IfOk result (λ copy. IsClone K.is_clone V.is_clone self.now copy) }
        ensures same { IfOk result
            (λ copy. ((x y : K) → K.is_clone x y → y ≡ x) → ((x y : V) → V.is_clone x y → y ≡ x)
            → copy ≡ self.now) }
    {
        Ok(SmallMap {
            form: copied(&self.form)?,
        })
    }
}

impl<K: Eq + Hash, V, const N: usize> Default for SmallMap<K, V, N> {
    ghost is_default = { λ map. map ≡ [] };

    fn default() -> Self {
        SmallMap::new()
    }
}

impl<K: Eq + Hash + fmt::Debug, V: fmt::Debug, const N: usize> fmt::Debug for SmallMap<K, V, N> {
    fn fmt<W: fmt::Write>(&self, f: &mut fmt::Formatter<W>) -> fmt::Result {
        let mut pairs = f.debug_map();
        match &self.form {
            Form::Small(slots) => {
                for slot in slots.as_slice() {
                    if let Some((key, value)) = slot {
                        pairs.entry(key, value);
                    }
                }
            }
            Form::Large(map) => {
                pairs.entries(map);
            }
        }
        pairs.finish()
    }
}

// A copy of either form.
fn copied<K: Eq + Hash + Clone + Drop, V: Clone + Drop, const N: usize>(
    form: &Form<K, V, N>,
) -> Result<Form<K, V, N>, AllocError>
    requires { (x y : K) → K.is_clone x y → IsTrue (K.eq x y) }
    ensures clones { IfOk result
        (λ copy. IsClone K.is_clone V.is_clone (entries_of form.now) (entries_of copy)) }
    ensures kept { IfOk result (λ copy. IsFormOf K.eq N form.now → IsFormOf K.eq N copy) }
{
    match form {
        Form::Small(slots) => Ok(Form::Small(slots.clone()?)),
        Form::Large(map) => Ok(Form::Large(map.clone()?)),
    }
}

// Puts a value at a key of a hashed map, and returns its place.
fn put_hashed<K: Eq + Hash + Drop, V: Drop>(
    map: &mut IndexMap<K, V>,
    key: K,
    value: V,
) -> Result<usize, AllocError>
    ensures place { IfOk result (IsAt K.eq key map.new.entries) }
    ensures ok { OnOk result (map.new.entries ≡ insert_entry K.eq map.old.entries key value) }
    ensures err { OnErr result (map.new.entries ≡ map.old.entries) }
    ensures there { IsSome (lookup (K.eq key) map.old.entries) → IsOk result }
    ensures room { 0 < spare map.old → IsOk result }
    ensures uses { spare map.old ≤ spare map.new + 1 }
    ensures longer { OnOk result (length map.old.entries ≤ length map.new.entries) }
{
    match map.insert_full(key, value) {
        Ok((place, _)) => Ok(place),
        Err(_) => Err(AllocError),
    }
}

// The hashed map of the pairs, in their order, with room for one more. The slots are empty afterwards, or as they were
// where it is refused.
fn hashed<K: Eq + Hash + Drop, V: Drop, const N: usize>(
    alloc: Global,
    slots: &mut ArrayVec<Option<(K, V)>, N>,
) -> Result<IndexMap<K, V>, AllocError>
    requires { EachOnce K.eq (pairs slots.old.items) }
    ensures ok { IfOk result (λ map. map.entries ≡ pairs slots.old.items) }
    ensures room { IfOk result (λ map. 0 < spare map) }
    ensures err { OnErr result (slots.new.items ≡ slots.old.items) }
{
    let room = slots.len().checked_add(1).ok_or(AllocError)?;
    let mut map = IndexMap::with_capacity(alloc, room)?;
    // `pop` takes from the back.
    slots.as_mut_slice().reverse();
    while let Some(slot) = slots.pop() {
        if let Some((key, value)) = slot {
            match put_hashed(&mut map, key, value) {
                Ok(_) => (),
                Err(_) => unreachable!(),
            }
        }
    }
    Ok(map)
}

// Puts a value at a key of either form, which grows to the other where it has to, and returns its place.
fn put<K: Eq + Hash + Drop, V: Drop, const N: usize>(
    form: &mut Form<K, V, N>,
    alloc: Global,
    key: K,
    value: V,
) -> Result<usize, AllocError>
    requires { IsFormOf K.eq N form.old }
    ensures kept { IsFormOf K.eq N form.new }
    ensures place { IfOk result (IsAt K.eq key (entries_of form.new)) }
    ensures ok { OnOk result
        (entries_of form.new ≡ insert_entry K.eq (entries_of form.old) key value) }
    ensures err { OnErr result (entries_of form.new ≡ entries_of form.old) }
    ensures there { IsSome (lookup (K.eq key) (entries_of form.old)) → IsOk result }
    ensures inline { length (entries_of form.old) < N → IsOk result }
{
    let slots = match form {
        Form::Small(slots) => slots,
        Form::Large(map) => return put_hashed(map, key, value),
    };
    if let Some(place) = place_of(slots.as_slice(), &key) {
        *slot_value(slots, place) = value;
        return Ok(place);
    }
    if slots.len() < N {
        let place = slots.len();
        slots.push(Some((key, value)));
        return Ok(place);
    }
    let mut map = hashed(alloc, slots)?;
    let place = match put_hashed(&mut map, key, value) {
        Ok(place) => place,
        Err(_) => unreachable!(),
    };
    *form = Form::Large(map);
    Ok(place)
}

// Where the first slot is whose key is equal.
fn place_of<K: Eq + Hash, V>(slots: &[Option<(K, V)>], key: &K) -> Option<usize>
    ensures { MatchOption result (lookup (K.eq key.now) (pairs slots.now) ≡ None)
        (IsPlaceOf K.eq key.now slots.now) }
{
    for (place, slot) in slots.iter().enumerate() {
        if let Some((k, _)) = slot {
            if key == k {
                return Some(place);
            }
        }
    }
    None
}

// The value of the pair at a place of either form.
fn value_at<K: Eq + Hash, V, const N: usize>(form: &mut Form<K, V, N>, place: usize) -> &mut V
    requires form { IsFormOf K.eq N form.old }
    requires within { place < length (entries_of form.old) }
    ensures* writes_back { sem 𝓛 (lends_place K.row V.row N.row K.Hash form.entry place result) }
    ensures value { option_map (λ e. e.1) (slice_get (entries_of form.old) place)
        ≡ Some result.now }
{
    match form {
        Form::Small(slots) => slot_value(slots, place),
        Form::Large(map) => hashed_value(map, place),
    }
}

// The value of the pair in a slot.
fn slot_value<K, V, const N: usize>(slots: &mut ArrayVec<Option<(K, V)>, N>, place: usize) -> &mut V
    requires within { place < length slots.old.items }
    requires holds { IsSome (slice_index_or slots.old.items place None) }
    ensures* writes_back { sem 𝓛 (lends_slot K.row V.row N.row slots.entry place result) }
    ensures value { option_map (λ pair. pair.1) (slice_index_or slots.old.items place None)
        ≡ Some result.now }
{
    match slots.get_mut(place) {
        Some(slot) => pair_value(slot),
        None => unreachable!(),
    }
}

// The value of a pair that is there.
fn pair_value<K, V>(slot: &mut Option<(K, V)>) -> &mut V
    requires { IsSome slot.old }
    ensures* writes_back { sem 𝓛 (lends_pair K.row V.row slot.entry result) }
    ensures value { option_map (λ pair. pair.1) slot.old ≡ Some result.now }
{
    match slot {
        Some(pair) => &mut pair.1,
        None => unreachable!(),
    }
}

// The value at a place of a hashed map.
fn hashed_value<K: Eq + Hash, V, S: BuildHasher, A: Allocator>(
    map: &mut IndexMap<K, V, S, A>,
    place: usize,
) -> &mut V
    requires { place < length map.old.entries }
    ensures* writes_back { sem 𝓛
        (lends_index K.row V.row S.row A.row S.Hasher.row K.Hash S.BuildHasher S.Hasher.Hasher
        A.Allocator map.entry place result) }
    ensures value { option_map (λ e. e.1) (slice_get map.old.entries place) ≡ Some result.now }
{
    match map.get_index_mut(place) {
        Some(value) => value,
        None => unreachable!(),
    }
}
