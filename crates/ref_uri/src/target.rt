//! What a target's text is composed of (RFC 3986, 5.2.2 and 5.3).
ghost use Rattle.std.specs.Prelude.{◌≡◌, ◌≢◌, ◌↔◌, ◌≤◌, ◌<◌, ◌++◌, ℕ, slice_index, IfSome, IfNone, true, false, List, [], length, codes, Some, None, is_some, is_none, map, option_map, option_copied, string_bytes, IfOk, OnOk, IsAscii, ◌∷◌};
ghost use Rattle.ref_uri.specs.Authority.{is_authority};
ghost use Rattle.ref_uri.specs.Components.{Components, are_components, text_of, framed_component, if_there, is_scheme, is_path, is_query, begins_with_slashes};
ghost use Rattle.ref_uri.specs.DotSegments.{remove_dot_segments};
ghost use Rattle.std.specs.Char.{to_ascii_lowercase};
ghost use Rattle.ref_uri.specs.Normal.{guarded_path, normal_components, normal_text, normal_authority};
ghost use Rattle.ref_uri.specs.Resolution.{through_last_slash, merged_path, target_path, resolved_components};
ghost use Rattle.ref_uri.specs.inner.Written.{is_plain, the_front, the_rest, written_text, written_scheme, written_authority};
ghost use Rattle.ref_uri.specs.inner.Target.{given_path, normal_path_of, written_path, written_by, written_components, lengths_of_components, AreParts, ArePlain, LosesSameDots, IsTarget, AreFramed, IsPlainTarget, LacksTriples, IsSettled, components_of, after_directory, path_past, target_with_dots};
ghost use Rattle.ref_uri.specs.Bytes.{slash};

use crate::dots::{
    may_hold_dots, may_hold_encoded_dot, push_merged_without_dots, push_without_dots, remove_dots,
};
use crate::lengths::{Lengths, Parts, head};
use crate::written::{Form, holds_upper, is_plain_host, normalize_end};
use std::alloc::{AllocError, Global};

/// Where a target's path comes from.
#[derive(Clone, Copy)]
pub enum PathOf<'a> {
    /// A path that keeps its dot segments.
    Kept(&'a str),
    /// A path that keeps its dot segments as it is given, and has none in normal form.
    OfBase(&'a str),
    /// A path without its dot segments.
    Removed(&'a str),
    /// A path after a directory and a slash, without their dot segments.
    Merged(&'a str, &'a str),
}

/// The components of a target, which are parts of other texts.
#[derive(Clone, Copy)]
pub struct Target<'a> {
    pub scheme: Option<&'a str>,
    pub authority: Option<&'a str>,
    pub path: PathOf<'a>,
    pub query: Option<&'a str>,
    pub fragment: Option<&'a str>,
    /// Scheme and authority with their marks, where they are in one text.
    pub front: Option<&'a str>,
    /// Query and fragment with their marks, where they are in one text.
    pub rest: Option<&'a str>,
}

/// Where the last slash of a path is.
fn last_slash(path: &[u8]) -> Option<usize>
    ensures found { IfSome result
        (λ k. (k < length path.now) × (slice_index path.now k ≡ slash)
        × ((i : ℕ) → k < i → i < length path.now → slice_index path.now i ≢ slash)) }
    ensures none { IfNone result ((i : ℕ) → i < length path.now → slice_index path.now i ≢ slash) }
{
    let mut end = path.len();
    while end > 0 {
        end -= 1;
        if path[end] == b'/' {
            return Some(end);
        }
    }
    None
}

/// What is before the last slash of a path.
fn before_last_slash(path: &str) -> Option<&str>
    requires { IsAscii path.now }
    ensures value { (more : List ℕ)
        → through_last_slash path.now ++ more ≡ after_directory (option_copied result) more }
    ensures path { is_path path.now ≡ true → if_there is_path (option_copied result) ≡ true }
    ensures plain { is_plain path.now ≡ true → if_there is_plain (option_copied result) ≡ true }
{
    match last_slash(path.as_bytes()) {
        Some(slash) => Some(head(path, slash)),
        None => None,
    }
}

/// The directory that a relative path is in: with an authority and an empty path it is the root (RFC 3986, 5.2.3).
fn directory(base: Parts<'_>) -> Option<&str>
    requires { IsAscii base.path.now }
    ensures value { (path : List ℕ)
        → merged_path (components_of base.entry) path
        ≡ after_directory (option_copied result) path }
    ensures path { is_path base.entry.path.now ≡ true
        → if_there is_path (option_copied result) ≡ true }
    ensures plain { is_plain base.entry.path.now ≡ true
        → if_there is_plain (option_copied result) ≡ true }
{
    if base.authority.is_some() && base.path.is_empty() {
        return Some("");
    }
    before_last_slash(base.path)
}

/// The path of the target of a reference that has one (RFC 3986, 5.2.2).
fn path_past<'a>(base: Parts<'a>, path: &'a str) -> PathOf<'a>
    requires { IsAscii base.path.now }
    ensures value { written_path Form.Given result
        ≡ target_path (components_of base.entry) path.now }
    ensures normal { written_path Form.Normal result
        ≡ remove_dot_segments (normal_text (path_past (components_of base.entry) path.now)) }
    ensures parts { is_path base.entry.path.now ≡ true → is_path path.now ≡ true → AreParts result }
    ensures plain { is_plain base.entry.path.now ≡ true → is_plain path.now ≡ true
        → ArePlain result }
{
    if path.as_bytes().first() == Some(&b'/') {
        return PathOf::Removed(path);
    }
    match directory(base) {
        Some(directory) => PathOf::Merged(directory, path),
        None => PathOf::Removed(path),
    }
}

/// The target of a reference against a base, by the five cases (RFC 3986, 5.2.2).
#[inline(always)]
pub fn resolved<'a>(base: Parts<'a>, reference: Parts<'a>) -> Target<'a>
    requires base { are_components (components_of base) ≡ true }
    requires reference { are_components (components_of reference) ≡ true }
    requires base_framed { AreFramed base }
    requires framed { AreFramed reference }
    ensures value { written_components Form.Given result
        ≡ resolved_components (components_of base.entry) (components_of reference.entry) }
    ensures normal { is_some (option_copied base.entry.scheme) ≡ true
        → written_components Form.Normal result
        ≡ normal_components
        (target_with_dots (components_of base.entry) (components_of reference.entry)) }
    ensures target { IsTarget result }
    ensures plain { LacksTriples (components_of base.entry)
        → LacksTriples (components_of reference.entry) → IsPlainTarget result }
{
    let fragment = reference.fragment;
    if reference.scheme.is_some() {
        return Target {
            scheme: reference.scheme,
            authority: reference.authority,
            path: PathOf::Removed(reference.path),
            query: reference.query,
            fragment,
            front: Some(reference.front),
            rest: Some(reference.rest),
        };
    }
    if reference.authority.is_some() {
        return Target {
            scheme: base.scheme,
            authority: reference.authority,
            path: PathOf::Removed(reference.path),
            query: reference.query,
            fragment,
            front: None,
            rest: Some(reference.rest),
        };
    }
    if reference.path.is_empty() {
        return Target {
            scheme: base.scheme,
            authority: base.authority,
            path: PathOf::OfBase(base.path),
            query: reference.query.or(base.query),
            fragment,
            front: Some(base.front),
            rest: None,
        };
    }
    let query = reference.query;
    Target {
        scheme: base.scheme,
        authority: base.authority,
        path: path_past(base, reference.path),
        query,
        fragment,
        front: Some(base.front),
        rest: Some(reference.rest),
    }
}

/// The path of a reference itself: with a scheme it loses its dot segments.
fn own_path<'a>(scheme: Option<&str>, path: &'a str) -> PathOf<'a>
    ensures with_scheme { is_some (option_copied scheme.entry) ≡ true
        → written_path Form.Normal result ≡ remove_dot_segments (normal_text path.now) }
    ensures without_scheme { option_copied scheme.entry ≡ None
        → written_path Form.Normal result ≡ normal_text path.now }
    ensures parts { is_path path.now ≡ true → AreParts result }
{
    match scheme {
        Some(_) => PathOf::Removed(path),
        None => PathOf::Kept(path),
    }
}

/// A reference itself, without dot segments where it has a scheme.
pub fn itself(reference: Parts<'_>) -> Target<'_>
    requires { are_components (components_of reference) ≡ true }
    ensures value { written_components Form.Normal result
        ≡ normal_components (components_of reference.entry) }
    ensures target { IsTarget result }
{
    Target {
        scheme: reference.scheme,
        authority: reference.authority,
        path: own_path(reference.scheme, reference.path),
        query: reference.query,
        fragment: reference.fragment,
        front: None,
        rest: None,
    }
}

/// Whether a scheme is in lower case, or absent.
fn is_lower(scheme: Option<&str>) -> bool
    ensures { result ≡ true
        → option_map (map to_ascii_lowercase) (option_copied scheme.entry)
        ≡ option_copied scheme.entry }
{
    match scheme {
        Some(scheme) => !holds_upper(scheme.as_bytes()),
        None => true,
    }
}

/// Whether an authority is a host in normal form, or absent.
fn is_plain_authority(authority: Option<&str>) -> bool
    ensures { result ≡ true
        → option_map normal_authority (option_copied authority.entry)
        ≡ option_copied authority.entry }
{
    match authority {
        Some(authority) => is_plain_host(authority.as_bytes()),
        None => true,
    }
}

/// Whether no segment of a path after a scheme begins with a dot.
fn lacks_dots(scheme: Option<&str>, path: &str) -> bool
    ensures { result ≡ true → is_some (option_copied scheme.entry) ≡ true
        → remove_dot_segments path.now ≡ path.now }
{
    match scheme {
        Some(_) => !may_hold_dots(path.as_bytes()),
        None => true,
    }
}

/// Whether a reference without triples is in normal form, and with a scheme its own target, as far as its characters show.
pub fn is_settled(reference: Parts<'_>) -> bool
    requires { LacksTriples (components_of reference) }
    ensures { result ≡ true → IsSettled (components_of reference.entry) }
{
    if !is_lower(reference.scheme) {
        return false;
    }
    if !is_plain_authority(reference.authority) {
        return false;
    }
    lacks_dots(reference.scheme, reference.path)
}

/// The room that a component and its marks take.
fn room(component: Option<&str>) -> usize {
    match component {
        Some(text) => text.len().saturating_add(2),
        None => 0,
    }
}

/// Appends a scheme and its `:`, and returns how long the scheme is.
fn push_scheme(
    buffer: &mut String,
    scheme: Option<&str>,
    form: Form,
) -> Result<Option<usize>, AllocError>
    requires buffer_ascii { IsAscii (string_bytes buffer.old) }
    requires scheme { if_there is_scheme (option_copied scheme) ≡ true }
    ensures text { OnOk result
        (string_bytes buffer.new
        ≡ string_bytes buffer.old
        ++ framed_component []
        (option_map (written_scheme form) (option_copied scheme.entry)) (codes ":")) }
    ensures len { IfOk result
        (λ n. n
        ≡ option_map length (option_map (written_scheme form) (option_copied scheme.entry))) }
    ensures ascii { OnOk result (IsAscii (string_bytes buffer.new)) }
{
    let Some(scheme) = scheme else {
        return Ok(None);
    };
    let start = buffer.len();
    form.push_scheme(buffer, scheme)?;
    let len = buffer.len() - start;
    buffer.push_str(":")?;
    Ok(Some(len))
}

/// Appends an authority after `//`, and returns how long it is.
fn push_authority(
    buffer: &mut String,
    authority: Option<&str>,
    form: Form,
) -> Result<Option<usize>, AllocError>
    requires buffer_ascii { IsAscii (string_bytes buffer.old) }
    requires authority { if_there is_authority (option_copied authority) ≡ true }
    ensures text { OnOk result
        (string_bytes buffer.new
        ≡ string_bytes buffer.old
        ++ framed_component (codes "//")
        (option_map (written_authority form) (option_copied authority.entry)) []) }
    ensures len { IfOk result
        (λ n. n
        ≡ option_map length
        (option_map (written_authority form) (option_copied authority.entry))) }
    ensures ascii { OnOk result (IsAscii (string_bytes buffer.new)) }
{
    let Some(authority) = authority else {
        return Ok(None);
    };
    buffer.push_str("//")?;
    let start = buffer.len();
    form.push_authority(buffer, authority)?;
    Ok(Some(buffer.len() - start))
}

/// Whether scheme and authority are in this form already, as far as their characters show.
fn keeps_front(scheme: Option<&str>, authority: Option<&str>, form: Form) -> bool
    ensures scheme { result ≡ true
        → option_map (written_scheme form) (option_copied scheme.entry)
        ≡ option_copied scheme.entry }
    ensures authority { result ≡ true
        → option_map (written_authority form) (option_copied authority.entry)
        ≡ option_copied authority.entry }
{
    match form {
        Form::Given => true,
        Form::Normal => is_lower(scheme) && is_plain_authority(authority),
        Form::NormalTarget => is_lower(scheme) && is_plain_authority(authority),
    }
}

/// How long a component is.
fn len_of(component: Option<&str>) -> Option<usize>
    ensures { result ≡ option_map length (option_copied component.entry) }
{
    match component {
        Some(component) => Some(component.len()),
        None => None,
    }
}

/// Appends a target's scheme and authority with their marks, and returns how long they are: at once, where they are so already.
fn push_front(
    buffer: &mut String,
    target: Target<'_>,
    form: Form,
) -> Result<(Option<usize>, Option<usize>), AllocError>
    requires buffer_ascii { IsAscii (string_bytes buffer.old) }
    requires target { IsTarget target }
    ensures text { OnOk result
        (string_bytes buffer.new
        ≡ string_bytes buffer.old
        ++ the_front (option_map (written_scheme form) (option_copied target.entry.scheme))
        (option_map (written_authority form) (option_copied target.entry.authority))) }
    ensures scheme { IfOk result
        (λ n. n.0
        ≡ option_map length
        (option_map (written_scheme form) (option_copied target.entry.scheme))) }
    ensures authority { IfOk result
        (λ n. n.1
        ≡ option_map length
        (option_map (written_authority form) (option_copied target.entry.authority))) }
    ensures ascii { OnOk result (IsAscii (string_bytes buffer.new)) }
{
    match target.front {
        Some(front) if keeps_front(target.scheme, target.authority, form) => {
            buffer.push_str(front)?;
            Ok((len_of(target.scheme), len_of(target.authority)))
        }
        _ => {
            let scheme = push_scheme(buffer, target.scheme, form)?;
            let authority = push_authority(buffer, target.authority, form)?;
            Ok((scheme, authority))
        }
    }
}

/// Appends a query or a fragment after its mark, and returns how long it is.
fn push_marked(
    buffer: &mut String,
    mark: &str,
    component: Option<&str>,
    form: Form,
) -> Result<Option<usize>, AllocError>
    requires component { if_there is_query (option_copied component) ≡ true }
    ensures text { OnOk result
        (string_bytes buffer.new
        ≡ string_bytes buffer.old
        ++ framed_component mark.now
        (option_map (written_text form) (option_copied component.entry)) []) }
    ensures len { IfOk result
        (λ n. n
        ≡ option_map length (option_map (written_text form) (option_copied component.entry))) }
{
    let Some(component) = component else {
        return Ok(None);
    };
    buffer.push_str(mark)?;
    let start = buffer.len();
    form.push(buffer, component)?;
    Ok(Some(buffer.len() - start))
}

/// Appends a target's query and fragment with their marks, and returns how long the query is: at once as they are given, where
/// they are in one text.
fn push_rest(
    buffer: &mut String,
    target: Target<'_>,
    form: Form,
) -> Result<Option<usize>, AllocError>
    requires { IsTarget target }
    ensures text { OnOk result
        (string_bytes buffer.new
        ≡ string_bytes buffer.old
        ++ the_rest (option_map (written_text form) (option_copied target.entry.query))
        (option_map (written_text form) (option_copied target.entry.fragment))) }
    ensures query { IfOk result
        (λ n. n
        ≡ option_map length
        (option_map (written_text form) (option_copied target.entry.query))) }
{
    match target.rest {
        Some(rest) if form.is_given() => {
            buffer.push_str(rest)?;
            Ok(len_of(target.query))
        }
        _ => {
            let query = push_marked(buffer, "?", target.query, form)?;
            push_marked(buffer, "#", target.fragment, form)?;
            Ok(query)
        }
    }
}

fn begins_with_slashes(path: &str) -> bool
    ensures { result ≡ begins_with_slashes path.now }
{
    matches!(path.as_bytes(), [b'/', b'/', ..])
}

/// Puts `/.` before the path that begins at `start`, where it would be taken for an authority (RFC 3986, 3.3).
fn guard(buffer: &mut String, start: usize, authority: Option<&str>) -> Result<(), AllocError>
    requires ascii { IsAscii (string_bytes buffer.old) }
    requires within { start ≤ length (string_bytes buffer.old) }
    ensures { (before path : List ℕ) → string_bytes buffer.old ≡ before ++ path
        → length before ≡ start
        → OnOk result
        (string_bytes buffer.new
        ≡ before ++ guarded_path (option_copied authority.entry) path) }
{
    if authority.is_some() || !begins_with_slashes(&buffer[start..]) {
        return Ok(());
    }
    buffer.insert_str(start, "/.")
}

impl<'a> PathOf<'a> {
    /// Whether the path in normal form is the same, be its dot segments removed before triples are decoded and after, or
    /// after alone: a segment such as `%2e` is one only then. The base's own path loses its dot segments only then.
    fn loses_same_dots(self) -> bool
        ensures { result ≡ true → LosesSameDots self.entry }
    {
        match self {
            PathOf::Kept(_) => false,
            PathOf::OfBase(_) => true,
            PathOf::Removed(path) => !may_hold_encoded_dot(path.as_bytes()),
            PathOf::Merged(directory, path) => {
                !may_hold_encoded_dot(directory.as_bytes())
                    && !may_hold_encoded_dot(path.as_bytes())
            }
        }
    }

    /// The path whose text as it is given is this one's normal form, where no triple is in it.
    fn without_dots(self) -> PathOf<'a>
        requires { ArePlain self }
        ensures text { given_path result ≡ normal_path_of self.entry }
        ensures parts { AreParts self.entry → AreParts result }
    {
        match self {
            PathOf::Kept(path) => PathOf::Kept(path),
            PathOf::OfBase(path) => PathOf::Removed(path),
            PathOf::Removed(path) => PathOf::Removed(path),
            PathOf::Merged(directory, path) => PathOf::Merged(directory, path),
        }
    }

    /// How long the path is at most.
    fn len(self) -> usize {
        match self {
            PathOf::Kept(path) => path.len(),
            PathOf::OfBase(path) => path.len(),
            PathOf::Removed(path) => path.len(),
            PathOf::Merged(directory, path) => {
                directory.len().saturating_add(path.len()).saturating_add(1)
            }
        }
    }

    /// The room that the path takes: a target's is there twice while it is put in normal form.
    fn room(self, form: Form) -> usize {
        match form {
            Form::Given | Form::Normal => self.len(),
            Form::NormalTarget => self.len().saturating_mul(2),
        }
    }

    /// Appends the path as it is given.
    #[inline(always)]
    fn push_given(self, buffer: &mut String) -> Result<(), AllocError>
        requires buffer_ascii { IsAscii (string_bytes buffer.old) }
        requires parts { AreParts self }
        ensures text { OnOk result
            (string_bytes buffer.new ≡ string_bytes buffer.old ++ given_path self.entry) }
        ensures ascii { OnOk result (IsAscii (string_bytes buffer.new)) }
    {
        match self {
            PathOf::Kept(path) => Form::Given.push(buffer, path),
            PathOf::OfBase(path) => Form::Given.push(buffer, path),
            PathOf::Removed(path) => push_without_dots(buffer, path, Form::Given),
            PathOf::Merged(directory, path) => {
                push_merged_without_dots(buffer, directory, path, Form::Given)
            }
        }
    }

    /// Appends the path in normal form.
    fn push_normal(self, buffer: &mut String) -> Result<(), AllocError>
        requires buffer_ascii { IsAscii (string_bytes buffer.old) }
        requires parts { AreParts self }
        ensures text { OnOk result
            (string_bytes buffer.new ≡ string_bytes buffer.old ++ normal_path_of self.entry) }
        ensures ascii { OnOk result (IsAscii (string_bytes buffer.new)) }
    {
        match self {
            PathOf::Kept(path) => Form::Normal.push(buffer, path),
            PathOf::OfBase(path) => push_without_dots(buffer, path, Form::Normal),
            PathOf::Removed(path) => push_without_dots(buffer, path, Form::Normal),
            PathOf::Merged(directory, path) => {
                push_merged_without_dots(buffer, directory, path, Form::Normal)
            }
        }
    }

    /// Appends the path as it is given, and puts it in normal form there. Dot segments that it has only then, such as
    /// `%2e`, go at the end.
    fn push_normal_target(self, buffer: &mut String) -> Result<(), AllocError>
        requires buffer_ascii { IsAscii (string_bytes buffer.old) }
        requires parts { AreParts self }
        ensures text { OnOk result
            (string_bytes buffer.new
            ≡ string_bytes buffer.old
            ++ remove_dot_segments (normal_text (given_path self.entry))) }
        ensures ascii { OnOk result (IsAscii (string_bytes buffer.new)) }
    {
        let start = buffer.len();
        self.push_given(buffer)?;
        normalize_end(buffer, start)?;
        remove_dots(buffer, start)
    }

    /// Appends the path.
    fn push(self, buffer: &mut String, form: Form) -> Result<(), AllocError>
        requires buffer_ascii { IsAscii (string_bytes buffer.old) }
        requires parts { AreParts self }
        ensures text { OnOk result
            (string_bytes buffer.new ≡ string_bytes buffer.old ++ written_path form self.entry) }
        ensures ascii { OnOk result (IsAscii (string_bytes buffer.new)) }
    {
        match form {
            Form::Given => self.push_given(buffer),
            Form::Normal => self.push_normal(buffer),
            Form::NormalTarget => self.push_normal_target(buffer),
        }
    }
}

/// Appends a path, guarded, and returns how long it is.
fn push_path(
    buffer: &mut String,
    path: PathOf<'_>,
    authority: Option<&str>,
    form: Form,
) -> Result<usize, AllocError>
    requires buffer_ascii { IsAscii (string_bytes buffer.old) }
    requires parts { AreParts path }
    ensures text { OnOk result
        (string_bytes buffer.new
        ≡ string_bytes buffer.old
        ++ guarded_path (option_copied authority.entry) (written_path form path.entry)) }
    ensures len { IfOk result
        (λ n. n
        ≡ length
        (guarded_path (option_copied authority.entry) (written_path form path.entry))) }
{
    let start = buffer.len();
    path.push(buffer, form)?;
    guard(buffer, start, authority)?;
    Ok(buffer.len() - start)
}

impl<'a> Target<'a> {
    /// The room that the text takes at most.
    fn room(self, form: Form) -> usize {
        let path = self.path.room(form).saturating_add(2);
        if let Some(front) = self.front
            && let Some(rest) = self.rest
        {
            return path.saturating_add(front.len()).saturating_add(rest.len());
        }
        room(self.scheme)
            .saturating_add(room(self.authority))
            .saturating_add(path)
            .saturating_add(room(self.query))
            .saturating_add(room(self.fragment))
    }

    /// The form in which the target's normal form is written: at once, where its path loses the same dot segments so.
    pub fn normal_form(self) -> Form
        requires { IsTarget self }
        ensures { written_components result self.entry
            ≡ written_components Form.NormalTarget self.entry }
    {
        if self.path.loses_same_dots() {
            return Form::Normal;
        }
        Form::NormalTarget
    }

    /// The target's text, and how long its components are: scheme and authority in one form, what follows in another. Takes
    /// memory once.
    pub fn write(
        self,
        alloc: Global,
        front: Form,
        form: Form,
    ) -> Result<(String, Lengths), AllocError>
        requires { IsTarget self }
        ensures text { IfOk result
            (λ t. string_bytes t.0 ≡ text_of (written_by front form self.entry)) }
        ensures lengths { IfOk result
            (λ t. t.1 ≡ lengths_of_components (written_by front form self.entry)) }
    {
        let mut text = String::with_capacity(alloc, self.room(form))?;
        let (scheme, authority) = push_front(&mut text, self, front)?;
        let path = push_path(&mut text, self.path, self.authority, form)?;
        let query = push_rest(&mut text, self, form)?;
        let lengths = Lengths {
            scheme,
            authority,
            path,
            query,
        };
        Ok((text, lengths))
    }

    /// The text of the target's normal form, and how long its components are, where no triple is in what follows the
    /// authority. Takes memory once.
    pub fn write_plain(self, alloc: Global) -> Result<(String, Lengths), AllocError>
        requires target { IsTarget self }
        requires plain { IsPlainTarget self }
        ensures text { IfOk result
            (λ t. string_bytes t.0 ≡ text_of (written_components Form.NormalTarget self.entry)) }
        ensures lengths { IfOk result
            (λ t. t.1 ≡ lengths_of_components (written_components Form.NormalTarget self.entry)) }
    {
        let target = Target {
            scheme: self.scheme,
            authority: self.authority,
            path: self.path.without_dots(),
            query: self.query,
            fragment: self.fragment,
            front: self.front,
            rest: self.rest,
        };
        target.write(alloc, Form::Normal, Form::Given)
    }
}
