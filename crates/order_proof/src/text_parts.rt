//! Parts of the text of a certificate: its numbers and identifiers.

ghost use Rattle.std.specs.Prelude.{◌≡◌, ◌≢◌, ◌++◌, ◌∷◌, ◌<◌, ◌^◌, ◌↔◌, ℕ, List, All, Some, IfSome, IfOk};
ghost use Rattle.std.specs.Prelude.{IsSomeAnd, IsTrue, true, false, decimal, position, ◌==◌};
ghost use Rattle.fugue_ids.specs.Identifiers.{Identifier};
ghost use Rattle.order_proof.specs.Texts.{id_text, ids_text};
ghost use Rattle.order_proof.specs.Readings.{HasNoByte, IsPossible, IsReadAs};

use crate::reading::TextFault;
use fugue_ids::ElementId;
use itoa::Buffer;
use std::alloc::Global;

/// Splits a text at the first such byte.
pub(crate) fn split_at_byte(text: &[u8], byte: u8) -> Option<(&[u8], &[u8])>
    ensures parts { IfSome result (λ (first, rest). text.now ≡ first.now ++ byte ∷ rest.now) }
    ensures every { (first rest : List ℕ) → HasNoByte byte first → text.now ≡ first ++ byte ∷ rest
        → IsSomeAnd result (λ (found, behind). (found.now ≡ first) × (behind.now ≡ rest)) }
{
    let end = find_byte(text, byte)?;
    Some((&text[..end], &text[end + 1..]))
}

fn find_byte(text: &[u8], byte: u8) -> Option<usize>
    ensures { result ≡ position (λ b. b == byte) text.now }
{
    text.iter().position(|b| *b == byte)
}

/// The text after a piece with which it begins.
pub(crate) fn strip<'a>(text: &'a [u8], piece: &[u8]) -> Option<&'a [u8]>
    ensures parts { IfSome result (λ rest. text.now ≡ piece.now ++ rest.now) }
    ensures every { (rest : List ℕ) → text.now ≡ piece.now ++ rest → IsSomeAnd result (λ found. found.now ≡ rest) }
{
    text.strip_prefix(piece)
}

/// Reads decimal digits with no sign, and no zero in front but in `0` itself.
fn read_number(word: &[u8]) -> Option<u32>
    ensures number { IfSome result (λ n. (word.now ≡ decimal n) × (n < 2 ^ 32)) }
    ensures every { (n : ℕ) → n < 2 ^ 32 → word.now ≡ decimal n → result ≡ Some n }
{
    match str::from_utf8(word) {
        Ok(digits) => read_digits(digits),
        Err(_) => None,
    }
}

fn read_digits(digits: &str) -> Option<u32>
    ensures number { IfSome result (λ n. (digits.now ≡ decimal n) × (n < 2 ^ 32)) }
    ensures every { (n : ℕ) → n < 2 ^ 32 → digits.now ≡ decimal n → result ≡ Some n }
{
    match digits.parse::<u32>() {
        Ok(number) if is_text_of(number, digits) => Some(number),
        _ => None,
    }
}

fn is_text_of(number: u32, digits: &str) -> bool
    ensures { IsTrue result ↔ (digits.now ≡ decimal number) }
{
    Buffer::new().format(number) == digits
}

/// Reads a replica, a dot and a counter.
fn read_id(word: &[u8]) -> Option<ElementId>
    ensures id { IfSome result (λ id. (word.now ≡ id_text id) × IsPossible id) }
    ensures every { (id : Identifier) → IsPossible id → word.now ≡ id_text id → result ≡ Some id }
{
    let (replica, counter) = split_at_byte(word, b'.')?;
    ElementId::new(read_number(replica)?, read_number(counter)?)
}

/// Splits a text before its first space, or at its end.
fn split_word(text: &[u8]) -> (&[u8], &[u8])
    ensures parts { text.now ≡ result.0.now ++ result.1.now }
    ensures every { (word : List ℕ) (more : List Identifier) → HasNoByte 32 word → text.now ≡ word ++ ids_text more
        → (result.0.now ≡ word) × (result.1.now ≡ ids_text more) }
{
    match find_byte(text, b' ') {
        Some(end) => (&text[..end], &text[end..]),
        None => (text, &[]),
    }
}

/// What is not read yet of a text. After a fault nothing is said of it.
#[derive(Drop)]
pub(crate) struct Unread<'a> {
    pub(crate) rest: &'a [u8],
}

impl<'a> Unread<'a> {
    /// Takes a piece, where the text begins with it.
    pub(crate) fn takes(&mut self, piece: &[u8]) -> bool
        ensures yes { result ≡ true → self.old.rest.now ≡ piece.now ++ self.new.rest.now }
        ensures every { (more : List ℕ) → self.old.rest.now ≡ piece.now ++ more
            → (result ≡ true) × (self.new.rest.now ≡ more) }
        ensures no { result ≡ false → self.new.rest.now ≡ self.old.rest.now }
    {
        match strip(self.rest, piece) {
            Some(rest) => {
                self.rest = rest;
                true
            }
            None => false,
        }
    }

    /// Takes a space and an identifier.
    fn take_id(&mut self) -> Option<ElementId>
        ensures parts { IfSome result
            (λ id. (self.old.rest.now ≡ (32 ∷ id_text id) ++ self.new.rest.now) × IsPossible id) }
        ensures every { (id : Identifier) (more : List Identifier) → IsPossible id
            → self.old.rest.now ≡ ids_text (id ∷ more)
            → (result ≡ Some id) × (self.new.rest.now ≡ ids_text more) }
    {
        let words = strip(self.rest, b" ")?;
        let (word, rest) = split_word(words);
        self.rest = rest;
        read_id(word)
    }
}

/// Reads identifiers, each after a space.
pub(crate) fn read_ids(alloc: Global, text: &[u8]) -> Result<Vec<ElementId>, TextFault>
    ensures ids { IfOk result (λ ids. (text.now ≡ ids_text ids.items) × All IsPossible ids.items) }
    ensures every { (ids : List Identifier) → All IsPossible ids → text.now ≡ ids_text ids
        → IsReadAs result (λ found. found.items ≡ ids) }
{
    let mut ids = Vec::new(alloc);
    let mut words = Unread { rest: text };
    'ids: while !words.rest.is_empty() {
        match words.take_id() {
            Some(id) => ids.push(id)?,
            None => return Err(TextFault::NoProof),
        }
    }
    Ok(ids)
}
