//! Text that is escaped for a URI's fragment (RFC 3986, section 3.5) and can be read back.
ghost use Rattle.std.specs.Prelude.{◌≡◌, ◌++◌, [], string_bytes, OnOk, OnErr, IfOk};
ghost use Rattle.percent_encoding.specs.Percent.{percent_decode as decoded};
ghost use Rattle.ref_parts.specs.Encoded.{encoded_text, IsEncoded};

use percent_encoding::{
    AsciiSet, DecodeError, NON_ALPHANUMERIC, ascii_set, percent_decode, utf8_percent_encode,
};
use std::alloc::{AllocError, Global};
use std::marker::Model;

/// What a fragment doesn't hold as it is: all but `unreserved`, `sub-delims` and `:@/?`.
const ESCAPED: AsciiSet = ascii_set!(
    NON_ALPHANUMERIC
        .remove(b'-')
        .remove(b'.')
        .remove(b'_')
        .remove(b'~')
        .remove(b'!')
        .remove(b'$')
        .remove(b'&')
        .remove(b'\'')
        .remove(b'(')
        .remove(b')')
        .remove(b'*')
        .remove(b'+')
        .remove(b',')
        .remove(b';')
        .remove(b'=')
        .remove(b':')
        .remove(b'@')
        .remove(b'/')
        .remove(b'?')
);

/// Text that grows and is kept escaped. Contracts see what was pushed since `new` or `clear`.
#[derive(Debug, Drop)]
pub struct EncodedBuffer {
    text: String,
}

/// Escaped text of an `EncodedBuffer`. Contracts see the text that it stands for.
#[derive(Debug, Drop)]
pub struct EncodedString<'a> {
    encoded: &'a str,
}

impl Model for EncodedBuffer {
    ghost use Rattle.std.specs.Prelude.{List, ℕ, string_bytes};
    ghost use Rattle.percent_encoding.specs.Percent.{percent_decode};
    ghost use Rattle.ref_parts.specs.Encoded.{IsEncoded};

    ghost Value = { List ℕ };

    ghost view = { λ b. percent_decode (string_bytes b.text) };

    ghost invariant = { λ b. IsEncoded (string_bytes b.text) };
}

impl<'a> Model for EncodedString<'a> {
    ghost use Rattle.std.specs.Prelude.{List, ℕ};
    ghost use Rattle.percent_encoding.specs.Percent.{percent_decode};
    ghost use Rattle.ref_parts.specs.Encoded.{IsEncoded};

    ghost Value = { List ℕ };

    ghost view = { λ s. percent_decode s.encoded.now };

    ghost invariant = { λ s. IsEncoded s.encoded.now };
}

impl EncodedBuffer {
    /// A buffer without text. Takes no memory.
    pub fn new(alloc: Global) -> Self
        ensures empty { result ≡ [] }
    {
        let text = String::new(alloc);
        EncodedBuffer { text }
    }

    /// Appends a text, escaped.
    ///
    /// Refused where there is no memory for it, and then the buffer is as it was. One pass.
    pub fn push_str(&mut self, text: &str) -> Result<(), AllocError>
        ensures ok { OnOk result (self.new ≡ self.old ++ text.now) }
        ensures err { OnErr result (self.new ≡ self.old) }
    {
        utf8_percent_encode(text, ESCAPED).append_to(&mut self.text)
    }

    /// The escaped text.
    pub fn as_str(&self) -> &str
        ensures value { result.now ≡ encoded_text self.now }
    {
        self.as_encoded().as_str()
    }

    /// The escaped text, to be lent on. Takes no memory.
    pub fn as_encoded(&self) -> EncodedString<'_>
        ensures value { result ≡ self.now }
    {
        EncodedString {
            encoded: self.text.as_str(),
        }
    }

    /// Forgets the text and keeps its memory.
    pub fn clear(&mut self)
        ensures empty { self.new ≡ [] }
    {
        self.text.clear();
    }

    /// What was pushed since `new` or the last `clear`. Refused where there is no memory for it. Linear in the escaped text.
    pub fn decode(&self, alloc: Global) -> Result<String, AllocError>
        ensures value { IfOk result (λ text. string_bytes text ≡ self.now) }
    {
        self.as_encoded().decode(alloc)
    }
}

impl<'a> EncodedString<'a> {
    /// The escaped text.
    pub fn as_str(&self) -> &'a str
        ensures value { result.now ≡ encoded_text self.now }
    {
        self.encoded
    }

    /// The text that the escaped text stands for. Refused where there is no memory for it. Linear in the escaped text.
    pub fn decode(&self, alloc: Global) -> Result<String, AllocError>
        ensures value { IfOk result (λ text. string_bytes text ≡ self.now) }
    {
        without_escapes(alloc, self.encoded)
    }
}

// The text without its escapes, which is UTF-8.
fn without_escapes(alloc: Global, text: &str) -> Result<String, AllocError>
    requires { IsEncoded text.now }
    ensures { IfOk result (λ read. string_bytes read ≡ decoded text.now) }
{
    match percent_decode(text.as_bytes()).decode_utf8(alloc) {
        Ok(read) => read.into_owned(alloc),
        Err(DecodeError::OutOfMemory) => Err(AllocError),
        Err(_) => unreachable!(),
    }
}
