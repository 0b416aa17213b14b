// Lists of phrases, with a bar before phrases 1, 2 and so on.
ghost use Rattle.std.specs.Prelude.{◌≡◌};
ghost use Rattle.show.specs.Phrase.{phrase_of};

// Phrase k; nothing where the list has no phrase k.
// Kept: bars in one byte string, as the definition `phrase_of` has them.
pub fn phrase(list: &[u8], k: usize) -> &[u8]
    ensures { result.now ≡ phrase_of list.now k }
{
    list.split(|x| *x == b'|').nth(k).unwrap_or(b"")
}
