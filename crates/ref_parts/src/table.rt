//! A table that is made once and then searched: from pairs of texts to values.
ghost use Rattle.std.specs.Prelude.{◌≡◌, ℕ, ◌+◌, ◌-◌, ◌^◌, ◌<◌, ◌≤◌, ◌&&◌, All, List, [], ◌∷◌, option_copied, IsUtf8, true, map, reverse, length, take, drop, ◌++◌, IfOk, IfSome, Some, OnOk, OnErr};
ghost use Rattle.ref_parts.specs.Table.{entries_of, texts_of, with_value, ChangesBy, last_value, pair_count};
ghost use Rattle.std.specs.Cmp.Lexicographic.{slice_cmp};
ghost use Rattle.std.specs.Ordering.{nat_cmp};
ghost use Rattle.std.specs.declared.cmp.Ordering.TheVariants.{Equal};
ghost use Rattle.ref_parts.specs.inner.SortedEntries.{big_endian, pair_cmp, pair_of, key_cmp, key_of, word_at, text_between, slot_after, place_of, slot_with_value, slot_with_word, IsWithin, same_slots, zeros, words_of};

use std::alloc::{AllocError, Global};
use std::cmp::Ordering;
use std::marker::Model;
use std::snapshot::Snapshot;

/// Values under pairs of texts, which are found by halving: they are in byte order, the greatest first, by the first text and
/// by the second where the first are equal, each pair once. Of each first text eight bytes, after the beginning that all first
/// texts have in common, are a number in a list beside them: most comparisons are of two such numbers. The texts are
/// one after another in one buffer.
///
/// Contracts see the list of the entries that it was made from.
#[derive(Drop)]
pub struct SortedTable<V> {
    // The numbers of the entries, one after another, which is all that most steps of a search read.
    words: Vec<u64>,
    kept: Vec<Slot<V>>,
    texts: Vec<u8>,
    // How many bytes the first texts begin with alike.
    shared: usize,
    // Where the entry of two texts is likely to be: its place, in the bucket of a number of its texts. Any places would do, since an
    // entry is compared with what is sought, and sought by halving where none is that one.
    hints: Vec<Bucket>,
    entered: Snapshot<Vec<Slot<V>>>,
}

/// The entries of a table that is to be made. Texts are copied, one after another, into one buffer.
///
/// Contracts see the list of the entries.
#[derive(Drop)]
pub struct TableEntries<V> {
    texts: Vec<u8>,
    slots: Vec<Slot<V>>,
}

// An entry: where its two texts are in the buffer, one right after the other, its value, and the eight bytes of its first text
// after what all of them share, as a number that decides most comparisons. The number is 0 until the table is made.
#[derive(Drop)]
struct Slot<V> {
    word: u64,
    first: usize,
    second: usize,
    end: usize,
    value: V,
}

// The places of up to four entries; `NOWHERE` for each that there is not.
#[derive(Clone, Copy, Drop)]
struct Bucket {
    first: u32,
    second: u32,
    third: u32,
    fourth: u32,
}

// A place that no entry has.
const NOWHERE: u32 = u32::MAX;

// How many entries room is taken for at once, and how many bytes of their texts.
const MOST_ENTRIES: usize = 32768;

const MOST_BYTES: usize = 1 << 21;

impl<V> Model for SortedTable<V> {
    ghost use Rattle.std.specs.Prelude.{List, ℕ};

    ghost Value = { List (List ℕ × List ℕ × V) };

    ghost use Rattle.std.specs.Prelude.{◌≡◌};
    ghost use Rattle.ref_parts.specs.inner.SortedEntries.{KeepsLast, entries_in, words_of};

    ghost view = { λ t. entries_in t.texts.items t.entered.value.items };

    ghost invariant = { λ t. KeepsLast t.texts.items t.shared t.kept.items t.entered.value.items
        × t.words.items ≡ words_of t.kept.items };
}

impl<V> Model for TableEntries<V> {
    ghost use Rattle.std.specs.Prelude.{List, ℕ};

    ghost Value = { List (List ℕ × List ℕ × V) };

    ghost use Rattle.std.specs.Prelude.{All};
    ghost use Rattle.ref_parts.specs.inner.SortedEntries.{IsWithin, entries_in};

    ghost view = { λ t. entries_in t.texts.items t.slots.items };

    ghost invariant = { λ t. All (IsWithin t.texts.items) t.slots.items };
}

impl<V: Drop> TableEntries<V> {
    /// No entries. Takes no memory.
    pub fn new(alloc: Global) -> Self
        ensures value { result ≡ [] }
    {
        TableEntries {
            texts: Vec::new(alloc),
            slots: Vec::new(alloc),
        }
    }

    /// Adds an entry. Copies its texts. Takes memory where the buffer or the list has no room left. The entries stay as they
    /// were where there is none.
    pub fn push(&mut self, first: &str, second: &str, value: V) -> Result<(), AllocError>
        ensures value { OnOk result
            (self.new ≡ self.old ++ (first.now, second.now, value) ∷ []) }
        ensures err { OnErr result (self.new ≡ self.old) }
    {
        let at = self.texts.len();
        self.texts.extend_from_slice(first.as_bytes())?;
        let middle = self.texts.len();
        self.texts.extend_from_slice(second.as_bytes())?;
        self.slots.push(Slot {
            word: 0,
            first: at,
            second: middle,
            end: self.texts.len(),
            value,
        })?;
        Ok(())
    }

    /// Moves the entries of another list after these. Copies its texts. Takes memory where the buffer or the list has no room
    /// left. Where there is none the other entries are let go, and these stay as they were.
    pub fn append(&mut self, other: TableEntries<V>) -> Result<(), AllocError>
        ensures value { OnOk result (self.new ≡ self.old ++ other) }
        ensures err { OnErr result (self.new ≡ self.old) }
    {
        let TableEntries { texts, slots } = other;
        let mut slots = slots;
        let before = self.texts.len();
        self.texts.extend_from_slice(texts.as_slice())?;
        move_after(before, slots.as_mut_slice());
        self.slots.append(&mut slots)?;
        Ok(())
    }

    /// Takes room for more entries: so many times as many as these, with texts as long, but not more than 32,768 entries with
    /// texts of two mebibytes. The entries stay as they were, whether there is memory or not.
    pub fn reserve_times(&mut self, times: usize) -> Result<(), AllocError>
        ensures value { self.new ≡ self.old }
    {
        let more = self.slots.len().saturating_mul(times).min(MOST_ENTRIES);
        self.slots.reserve(more)?;
        let more = self.texts.len().saturating_mul(times).min(MOST_BYTES);
        self.texts.reserve(more)
    }

    /// Changes the value of each entry in turn, from the first on. Texts stay as they are. Takes no memory but what `change` takes.
    pub fn change_values<F: FnMut(&mut V)>(&mut self, change: F)
        requires { F.IsAlwaysCallable change }
        ensures texts { map texts_of self.new ≡ map texts_of self.old }
        ensures value { (h : V → V) → ChangesBy F.FnMut change h
            → self.new ≡ map (with_value h) self.old }
    {
        change_each(self.slots.as_mut_slice(), change);
    }

    /// The table of these entries: under each pair of texts the value that was entered last.
    ///
    /// Texts and values move in, and none is copied. Takes memory for the table and to sort it, and is refused where
    /// there is none. At most about `n * log2(n)` comparisons of two entries.
    pub fn into_table(self, alloc: Global) -> Result<SortedTable<V>, AllocError>
        ensures entered { IfOk result (λ table. table ≡ self) }
    {
        let TableEntries { texts, slots } = self;
        let mut kept = slots;
        let entered = Snapshot::of(&kept);
        let shared = shared_len(texts.as_slice(), kept.as_slice());
        // Sorting keeps the order of equal pairs, and of these the first stays. Entries that came in byte order fall
        // now, and need only be passed.
        number_backwards(texts.as_slice(), kept.as_mut_slice(), shared);
        let buffer = &texts;
        kept.as_mut_slice()
            .sort_by(alloc, |a, b| slot_order(buffer, a, b))?;
        kept.dedup_by(|a, b| is_same(buffer, a, b));
        Ok(SortedTable {
            words: words_of(alloc, kept.as_slice())?,
            hints: hints_of(alloc, texts.as_slice(), kept.as_slice())?,
            kept,
            texts,
            shared,
            entered,
        })
    }
}

impl<V: Drop> SortedTable<V> {
    /// The table of these entries: under each pair of texts the value that was entered last.
    ///
    /// Values move in, and texts are copied into the table's buffer. Takes memory for the table and to sort it, and is refused
    /// where there is none. At most about `n * log2(n)` comparisons of two entries.
    pub fn from_entries(
        alloc: Global,
        entries: Vec<(String, String, V)>,
    ) -> Result<Self, AllocError>
        ensures entered { IfOk result (λ table. table ≡ entries_of entries.items) }
    {
        let mut collected = TableEntries::new(alloc);
        for (first, second, value) in entries {
            collected.push(first.as_str(), second.as_str(), value)?;
        }
        collected.into_table(alloc)
    }
}

impl<V> SortedTable<V> {
    /// How many different pairs of texts have a value.
    pub fn len(&self) -> usize
        ensures value { result ≡ pair_count self.now }
    {
        self.kept.len()
    }

    /// The value that was entered last under two texts, and a count, which the code raises where it compares an entry
    /// with them.
    ///
    /// The count is at least 1 where the table isn't empty, and at most as many as `len` has binary digits: where `len`
    /// is below 2^n, at most n. Takes no memory. A comparison reads texts only where eight bytes of the first, after
    /// what all first texts have in common, are equal; then each byte of a beginning that they share at most twice, and
    /// second texts only where the first are equal.
    #[inline(always)]
    pub fn get(&self, first: &str, second: &str) -> (Option<&V>, usize)
        ensures value { option_copied result.0 ≡ last_value first.now second.now self.now }
        ensures asked { 0 < pair_count self.now → 0 < result.1 }
        ensures probes { (digits : ℕ) → pair_count self.now < 2 ^ digits → result.1 ≤ digits }
    {
        let word = word_at(first.as_bytes(), self.shared);
        let mut probes = 0;
        let mut low = 0;
        let mut high = self.words.len();
        while low < high {
            let middle = (low + high) / 2;
            let number = self.words[middle];
            let slot = &self.kept[middle];
            match probe(&self.texts, number, slot, word, first, second, &mut probes) {
                Ordering::Less => low = middle + 1,
                Ordering::Equal => return (Some(&slot.value), probes),
                Ordering::Greater => high = middle,
            }
        }
        (None, probes)
    }

    /// The value that was entered last under two texts: what `get` finds, without a count.
    ///
    /// Mostly one comparison, with the entry at a place that is kept under a number of the texts; where that is another entry, up to
    /// four, and then it is found by halving, as `get` does. Takes no memory.
    #[inline(always)]
    pub fn find(&self, first: &str, second: &str) -> Option<&V>
        ensures value { option_copied result ≡ last_value first.now second.now self.now }
    {
        let word = word_at(first.as_bytes(), self.shared);
        let bucket = self.bucket(mixed(word, first.as_bytes(), second.as_bytes()));
        let place = self.place_in(bucket, word);
        if place < self.kept.len() {
            let slot = &self.kept[place];
            if is_entry(&self.texts, slot, word, first, second) {
                return Some(&slot.value);
            }
        }
        self.search(bucket, first, second)
    }

    // The same, where the first entry of the bucket whose first text has the word is another one: by the others of the bucket, and
    // then by halving.
    #[inline(never)]
    fn search(&self, bucket: Bucket, first: &str, second: &str) -> Option<&V>
        ensures value { option_copied result ≡ last_value first.now second.now self.now }
    {
        if let Some(value) = self.value_at(bucket.second, first, second) {
            return Some(value);
        }
        if let Some(value) = self.value_at(bucket.third, first, second) {
            return Some(value);
        }
        if let Some(value) = self.value_at(bucket.fourth, first, second) {
            return Some(value);
        }
        self.get(first, second).0
    }

    // The value of the entry at a place, where that is the one of two texts.
    fn value_at(&self, place: u32, first: &str, second: &str) -> Option<&V>
        ensures value { IfSome result
            (λ v. last_value first.now second.now self.now ≡ Some v.now) }
    {
        let place = place as usize;
        if place >= self.kept.len() {
            return None;
        }
        let word = word_at(first.as_bytes(), self.shared);
        let slot = &self.kept[place];
        if is_entry(&self.texts, slot, word, first, second) {
            return Some(&slot.value);
        }
        None
    }

    // The bucket of a number.
    #[inline(always)]
    fn bucket(&self, number: usize) -> Bucket {
        let at = number & self.hints.len().wrapping_sub(1);
        self.hints.get(at).copied().unwrap_or(Bucket::new())
    }

    // The first place of a bucket at which the first text of the entry has this word; beyond the end where there is none.
    #[inline(always)]
    fn place_in(&self, bucket: Bucket, word: u64) -> usize {
        if self.has_word(bucket.first, word) {
            return bucket.first as usize;
        }
        if self.has_word(bucket.second, word) {
            return bucket.second as usize;
        }
        if self.has_word(bucket.third, word) {
            return bucket.third as usize;
        }
        bucket.fourth as usize
    }

    #[inline(always)]
    fn has_word(&self, place: u32, word: u64) -> bool {
        match self.words.get(place as usize) {
            Some(number) => *number == word,
            None => false,
        }
    }
}

impl Bucket {
    // No places.
    #[inline(always)]
    fn new() -> Bucket {
        Bucket {
            first: NOWHERE,
            second: NOWHERE,
            third: NOWHERE,
            fourth: NOWHERE,
        }
    }

    // Adds a place, in that of the last where there are four already.
    #[inline(always)]
    fn push(&mut self, place: u32) {
        if self.first == NOWHERE {
            self.first = place;
        } else if self.second == NOWHERE {
            self.second = place;
        } else if self.third == NOWHERE {
            self.third = place;
        } else {
            self.fourth = place;
        }
    }
}

// The places of entries, in buckets by the numbers of their texts: room for two of each entry, or up to four. Of more than 2^31
// entries some have none.
#[inline(never)]
fn hints_of<V>(alloc: Global, texts: &[u8], kept: &[Slot<V>]) -> Result<Vec<Bucket>, AllocError> {
    let count = bucket_count(kept.len());
    let mut hints = Vec::new(alloc);
    hints.resize(count, Bucket::new())?;
    let mut place = 0;
    for slot in kept {
        let first = text_between(texts, slot.first, slot.second);
        let second = text_between(texts, slot.second, slot.end);
        let at = mixed(slot.word, first, second) & count.wrapping_sub(1);
        if let Some(bucket) = hints.get_mut(at) {
            bucket.push(place);
        }
        place = place.wrapping_add(1);
    }
    Ok(hints)
}

// How many buckets there are for so many entries, a power of two.
fn bucket_count(entries: usize) -> usize {
    (entries.min(1 << 31) / 2).next_power_of_two()
}

// A number of two texts, with the word of the first: by that, the last eight bytes of each, and the length of the second.
#[inline(always)]
fn mixed(word: u64, first: &[u8], second: &[u8]) -> usize {
    let ends = last_word(first).rotate_left(17)
        ^ last_word(second).rotate_left(39)
        ^ second.len() as u64;
    let both = word ^ ends;
    let folded = (both ^ (both >> 32)).wrapping_mul(0x9e37_79b9_7f4a_7c15);
    ((folded >> 32) ^ (folded >> 48)) as usize
}

// The last eight bytes of a text as a number, or those that it has.
#[inline(always)]
fn last_word(text: &[u8]) -> u64 {
    if let Some((_, eight)) = text.split_last_chunk::<8>() {
        return u64::from_be_bytes(*eight);
    }
    short_word(text)
}

// A number of a text that has less than eight bytes: by them all where it has more than three, and else by the first, the middle
// and the last.
#[inline(always)]
fn short_word(text: &[u8]) -> u64 {
    if let (Some((front, _)), Some((_, back))) = (
        text.split_first_chunk::<4>(),
        text.split_last_chunk::<4>(),
    ) {
        return (u32::from_be_bytes(*front) as u64) << 32 | u32::from_be_bytes(*back) as u64;
    }
    match text {
        [] => 0,
        [first] => *first as u64,
        [first, .., last] => {
            let middle = text[text.len() / 2];
            (*first as u64) << 16 | (middle as u64) << 8 | *last as u64
        }
    }
}

// Moves the offsets of slots, whose texts are after so many more bytes.
fn move_after<V>(before: usize, slots: &mut [Slot<V>])
    requires { (texts : List ℕ) × All (IsWithin texts) slots.old × before + length texts < 2 ^ 64 }
    ensures value { slots.new ≡ map (slot_after before) slots.old }
    ensures len { length slots.new ≡ length slots.old }
{
    for slot in slots.iter_mut() {
        slot.first += before;
        slot.second += before;
        slot.end += before;
    }
}

// Changes the value of each slot in turn.
fn change_each<V, F: FnMut(&mut V)>(slots: &mut [Slot<V>], mut change: F)
    requires { F.IsAlwaysCallable change }
    ensures places { map place_of slots.new ≡ map place_of slots.old }
    ensures len { length slots.new ≡ length slots.old }
    ensures value { (h : V → V) → ChangesBy F.FnMut change h
        → slots.new ≡ map (slot_with_value h) slots.old }
{
    for slot in slots.iter_mut() {
        change(&mut slot.value);
    }
}

// Turns slots round, and gives each the word of its first text.
fn number_backwards<V>(texts: &[u8], slots: &mut [Slot<V>], shared: usize)
    ensures value { slots.new ≡ map (slot_with_word texts.now shared) (reverse slots.old) }
    ensures len { length slots.new ≡ length slots.old }
{
    slots.reverse();
    for slot in slots.iter_mut() {
        slot.word = word_at(text_between(texts, slot.first, slot.second), shared);
    }
}

// The numbers of slots, in their order.
fn words_of<V>(alloc: Global, slots: &[Slot<V>]) -> Result<Vec<u64>, AllocError>
    ensures { IfOk result (λ words. words.items ≡ words_of slots.now) }
{
    let mut words = Vec::with_capacity(alloc, slots.len())?;
    for slot in slots {
        words.push(slot.word)?;
    }
    Ok(words)
}

// How many bytes the first texts of all entries begin with alike.
fn shared_len<V>(texts: &[u8], slots: &[Slot<V>]) -> usize {
    let Some(slot) = slots.first() else {
        return 0;
    };
    let mut shared = text_between(texts, slot.first, slot.second);
    for slot in slots {
        shared = shared_part(shared, text_between(texts, slot.first, slot.second));
    }
    shared.len()
}

// The beginning of a text that another one has too.
fn shared_part<'t>(text: &'t [u8], other: &[u8]) -> &'t [u8] {
    if begins_with(other, text) {
        return text;
    }
    let len = text
        .iter()
        .zip(other)
        .take_while(|(byte, also)| byte == also)
        .count();
    text.get(..len).unwrap_or(text)
}

// Whether a text begins with another one: eight bytes after eight, the last of which may be compared twice.
#[inline(always)]
fn begins_with(text: &[u8], front: &[u8]) -> bool {
    let len = front.len();
    if text.len() < len {
        return false;
    }
    if len < 8 {
        return text.starts_with(front);
    }
    let mut at = 0;
    while len - at > 8 {
        if eight_at(text, at) != eight_at(front, at) {
            return false;
        }
        at += 8;
    }
    eight_at(text, len - 8) == eight_at(front, len - 8)
}

// The eight bytes of a text from a place on as a number.
#[inline(always)]
fn eight_at(text: &[u8], at: usize) -> u64
    requires { at + 8 ≤ length text.now }
{
    match text[at..].split_first_chunk::<8>() {
        Some((eight, _)) => u64::from_ne_bytes(*eight),
        None => 0,
    }
}

// The eight bytes of a text from a place on as a number, the first one highest, with 0 for each that it hasn't. Where fewer are
// left, the text's last eight are read at once, and those before the place fall out at the top.
fn word_at(bytes: &[u8], from: usize) -> u64
    ensures { result ≡ word_at from bytes.now }
{
    let rest = &bytes[from.min(bytes.len())..];
    if let Some((eight, _)) = rest.split_first_chunk::<8>() {
        return u64::from_be_bytes(*eight);
    }
    if let Some((_, eight)) = bytes.split_last_chunk::<8>() {
        return last_bytes(eight, rest.len());
    }
    u64::from_be_bytes(first_eight(rest))
}

// So many of eight bytes, the last ones, as a number, the first one highest, with 0 for each after them.
#[inline(always)]
fn last_bytes(eight: &[u8; 8], count: usize) -> u64
    requires { count < 8 }
    ensures { result ≡ big_endian 8 (drop (8 - count) eight.now) }
{
    u64::from_be_bytes(*eight) << (8 * (7 - count)) << 8
}

// The first eight bytes, with 0 for each that there is not. Few texts are so short, so the copy stays out of what searches.
#[inline(never)]
fn first_eight(bytes: &[u8]) -> [u8; 8]
    ensures { result ≡ take 8 bytes.now ++ drop (length bytes.now) zeros }
{
    let len = bytes.len().min(8);
    let mut first = [0; 8];
    first[..len].copy_from_slice(&bytes[..len]);
    first
}

// The part of the texts from one offset to another; what there is of it, where they don't reach so far.
#[inline(always)]
fn text_between(texts: &[u8], from: usize, to: usize) -> &[u8]
    ensures { result.now ≡ text_between from to texts.now }
{
    let end = to.min(texts.len());
    &texts[from.min(end)..end]
}

// The same as a text, where the offsets are in order and there is a text between them. It isn't read to see that it is one: texts
// are compared in fewer steps than bytes, and a look-up that compared bytes took 38 instructions more.
#[inline(always)]
fn text_within(texts: &[u8], from: usize, to: usize) -> &str
    requires order { from ≤ to }
    requires within { to ≤ length texts.now }
    requires text { IsUtf8 (text_between from to texts.now) }
    ensures { result.now ≡ text_between from to texts.now }
{
    unsafe { str::from_utf8_unchecked(&texts[from..to]) }
}

// Compares an entry, whose number is given, with two texts, and counts that it did.
#[inline(always)]
fn probe<V>(
    texts: &Vec<u8>,
    number: u64,
    slot: &Slot<V>,
    word: u64,
    first: &str,
    second: &str,
    probes: &mut usize,
) -> Ordering
    requires number { number ≡ slot.now.word }
    requires within { IsWithin texts.now.items slot.now }
    requires counts { probes.old + 1 < 2 ^ 64 }
    ensures order { result
        ≡ key_cmp (key_of texts.now.items slot.now) (word, (first.now, second.now)) }
    ensures counted { probes.new ≡ probes.old + 1 }
{
    *probes += 1;
    order(texts, number, slot, word, first, second)
}

// Whether an entry is before two texts with the word of the first: by the words, and by the texts where those are
// equal, the greatest first. Few comparisons read texts, so those stay out of what searches; and each answer
// is given by a branch of its own, which takes fewer steps there than an order that is then matched. The entry's number
// is given, since a search reads it elsewhere.
#[inline(always)]
fn order<V>(
    texts: &Vec<u8>,
    number: u64,
    slot: &Slot<V>,
    word: u64,
    first: &str,
    second: &str,
) -> Ordering
    requires number { number ≡ slot.now.word }
    requires within { IsWithin texts.now.items slot.now }
    ensures { result ≡ key_cmp (key_of texts.now.items slot.now) (word, (first.now, second.now)) }
{
    if word < number {
        return Ordering::Less;
    }
    if word > number {
        return Ordering::Greater;
    }
    texts_of_equal_words(texts, first, second, slot)
}

// Whether an entry is the one of two texts with the word of the first. In place, since most look-ups ask for one entry alone.
#[inline(always)]
fn is_entry<V>(texts: &Vec<u8>, slot: &Slot<V>, word: u64, first: &str, second: &str) -> bool
    requires { IsWithin texts.now.items slot.now }
    ensures { result ≡ true
        → key_cmp (key_of texts.now.items slot.now) (word, (first.now, second.now)) ≡ Equal }
{
    let buffer = texts.as_slice();
    let other_first = text_within(buffer, slot.first, slot.second);
    let other_second = text_within(buffer, slot.second, slot.end);
    slot.word == word && first == other_first && second == other_second
}

// The same for two entries, whose texts stay out of what sorts. Any two are compared, wherever their offsets are.
#[inline(always)]
fn slot_order<V>(texts: &Vec<u8>, slot: &Slot<V>, other: &Slot<V>) -> Ordering
    ensures { result
        ≡ key_cmp (key_of texts.now.items slot.now) (key_of texts.now.items other.now) }
{
    if other.word < slot.word {
        return Ordering::Less;
    }
    if other.word > slot.word {
        return Ordering::Greater;
    }
    texts_of_slots(texts, slot, other)
}

// The order of the texts of the second entry and those of the first.
#[inline(never)]
fn texts_of_slots<V>(texts: &Vec<u8>, slot: &Slot<V>, other: &Slot<V>) -> Ordering
    ensures { result
        ≡ pair_cmp (pair_of texts.now.items other.now) (pair_of texts.now.items slot.now) }
{
    let buffer = texts.as_slice();
    let first = text_between(buffer, slot.first, slot.second);
    let other_first = text_between(buffer, other.first, other.second);
    if other_first == first {
        let second = text_between(buffer, slot.second, slot.end);
        let other_second = text_between(buffer, other.second, other.end);
        return other_second.cmp(&second);
    }
    other_first.cmp(&first)
}

// Whether two entries have one word and the same texts.
#[inline(always)]
fn is_same<V>(texts: &Vec<u8>, slot: &Slot<V>, other: &Slot<V>) -> bool
    ensures { result ≡ same_slots texts.now.items slot.now other.now }
{
    let buffer = texts.as_slice();
    slot.word == other.word
        && text_between(buffer, slot.first, slot.second)
            == text_between(buffer, other.first, other.second)
        && text_between(buffer, slot.second, slot.end)
            == text_between(buffer, other.second, other.end)
}

// The order of two texts and those of an entry: by the first of each, and by the second only where those are equal. The buffer is
// given by one address, so that no argument is put on the stack.
#[inline(never)]
fn texts_of_equal_words<V>(texts: &Vec<u8>, first: &str, second: &str, slot: &Slot<V>) -> Ordering
    requires { IsWithin texts.now.items slot.now }
    ensures { result ≡ pair_cmp (first.now, second.now) (pair_of texts.now.items slot.now) }
{
    let buffer = texts.as_slice();
    let other_first = text_within(buffer, slot.first, slot.second);
    if first == other_first {
        return text_order(second, text_within(buffer, slot.second, slot.end));
    }
    first.cmp(&other_first)
}

// The order of two texts. To see that they are equal takes fewer steps than to see which is the greater.
#[inline(always)]
fn text_order(text: &str, other: &str) -> Ordering
    ensures { result ≡ slice_cmp nat_cmp text.now other.now }
{
    if text == other {
        return Ordering::Equal;
    }
    text.cmp(&other)
}
