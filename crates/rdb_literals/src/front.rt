//! What stands behind a word at the front of a text, and before one at its end. It touches nothing.

ghost use Rattle.std.specs.Prelude.{◌≡◌, ◌≢◌, ◌++◌, ℕ, List, IfSome, IsSomeAnd};
ghost use Rattle.std.specs.Bool.{OnTrue, OnFalse};

/// Whether the text is this word. The cost grows with the word.
pub fn is_word(text: &[u8], word: &[u8]) -> bool
    ensures yes { OnTrue result (text.now ≡ word.now) }
    ensures no { OnFalse result (text.now ≢ word.now) }
{
    text == word
}

/// The text behind `word`, where it begins with it. The cost grows with the word.
pub fn after<'a>(text: &'a [u8], word: &[u8]) -> Option<&'a [u8]>
    ensures found { IfSome result (λ rest. text.now ≡ word.now ++ rest.now) }
    ensures exact { (rest : List ℕ) → text.now ≡ word.now ++ rest → IsSomeAnd result (λ found. found.now ≡ rest) }
{
    text.strip_prefix(word)
}

/// The text before `word`, where it ends with it. The cost grows with the word.
pub fn before<'a>(text: &'a [u8], word: &[u8]) -> Option<&'a [u8]>
    ensures found { IfSome result (λ front. text.now ≡ front.now ++ word.now) }
    ensures exact { (front : List ℕ) → text.now ≡ front ++ word.now → IsSomeAnd result (λ found. found.now ≡ front) }
{
    text.strip_suffix(word)
}
