//! Whether a source has directives of macros.

ghost use Rattle.std.specs.Prelude.{◌≡◌, ◌<◌, [], ◌∷◌, IfSome, length};
ghost use Rattle.std.specs.Option.{option_map_or};
ghost use Rattle.rrs_asm_macros.specs.Directives.{has_directives, words};

use crate::directives::is_directive;
use rrs_asm_lines::is_in_word;

/// Whether a word of a text is the name of a directive of macros.
pub fn has_directives(text: &[u8]) -> bool
    ensures { result ≡ has_directives text.now }
{
    let mut rest = Some(text);
    while let Some(left) = rest {
        let (word, others) = first_word(left);
        if is_directive(word) {
            return true;
        }
        rest = others;
    }
    false
}

/// The bytes of a name that a text begins with, and what is after the byte that follows them.
fn first_word(text: &[u8]) -> (&[u8], Option<&[u8]>)
    ensures words { words text.now
        ≡ result.0.now ∷ option_map_or (λ rest. words rest.now) result.1 [] }
    ensures shorter { IfSome result.1 (λ rest. length rest.now < length text.now) }
{
    for (index, byte) in text.iter().enumerate() {
        if !is_in_word(*byte) {
            return (&text[..index], Some(&text[index + 1..]));
        }
    }
    (text, None)
}
