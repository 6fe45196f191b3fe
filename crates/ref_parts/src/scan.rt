//! The first `~` or `/` of a text, by words of eight bytes.
ghost use Rattle.std.specs.Prelude.{◌≡◌, ℕ, ◌*◌, ◌^◌, ◌<◌, ◌≤◌, ◌==◌, List, length, take, All};
ghost use Rattle.std.specs.List.{concat};
ghost use Rattle.ref_parts.specs.Pointer.{first_escape as escape_position, is_escaped};
ghost use Rattle.ref_parts.specs.inner.Words.{IsPlain, MarksFirst, number};

const ONES: u64 = 0x0101_0101_0101_0101;

const HIGH_BITS: u64 = 0x8080_8080_8080_8080;

const TILDES: u64 = 0x7e7e_7e7e_7e7e_7e7e;

const SLASHES: u64 = 0x2f2f_2f2f_2f2f_2f2f;

// Where the first escape is in words one after another.
pub(crate) fn first_in_words(words: &[[u8; 8]]) -> Option<usize>
    requires { length words.now * 8 < 2 ^ 64 }
    ensures { result ≡ escape_position (concat words.now) }
{
    let passed = words_before_block(words);
    for (index, word) in words[passed..].iter().enumerate() {
        let marks = marks(word);
        if marks != 0 {
            return Some((passed + index) * 8 + marks.trailing_zeros() as usize / 8);
        }
    }
    None
}

// Where the first escape is among fewer bytes than a word has.
pub(crate) fn first_in_rest(rest: &[u8]) -> Option<usize>
    requires { length rest.now < 8 }
    ensures { result ≡ escape_position rest.now }
{
    rest.iter().position(|byte| *byte == b'~' || *byte == b'/')
}

// How many words are before the first eight that have an escape, or before the fewer than eight at the end.
fn words_before_block(words: &[[u8; 8]]) -> usize
    ensures within { result ≤ length words.now }
    ensures plain { IsPlain (concat (take result words.now)) }
{
    let (blocks, _) = words.as_chunks::<8>();
    let mut passed = 0;
    for block in blocks {
        if block_marks(block) != 0 {
            break;
        }
        passed += 8;
    }
    passed
}

// The marks of eight words, all in one.
fn block_marks(block: &[[u8; 8]; 8]) -> u64
    ensures { result ≡ 0 → IsPlain (concat block.now) }
{
    let mut all = 0;
    for word in block {
        all |= marks(word);
    }
    all
}

// The marks of a word's escapes, its first byte lowest.
fn marks(word: &[u8; 8]) -> u64
    ensures { MarksFirst is_escaped word.now result }
{
    let word = u64::from_le_bytes(*word);
    zero_marks(word ^ TILDES) | zero_marks(word ^ SLASHES)
}

// The marks of a word's bytes that are 0. The borrow of the first such byte may mark bytes above it that are 1.
fn zero_marks(word: u64) -> u64
    ensures { (bytes : List ℕ) → length bytes ≡ 8 → All (λ b. b < 256) bytes → word ≡ number bytes
        → MarksFirst (λ b. b == 0) bytes result }
{
    word.wrapping_sub(ONES) & !word & HIGH_BITS
}
