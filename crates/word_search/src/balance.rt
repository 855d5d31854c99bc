//! How often each letter stands at odd and at even places.
ghost use Rattle.std.specs.Prelude.{◌≡◌, ◌+◌, ◌-◌, ◌^◌, ◌<◌, ◌↔◌, ℕ, List, [], ◌∷◌, ◌++◌, length, slice_index, IsTrue};
ghost use Rattle.edge_words.specs.Stable.{count_of};
ghost use Rattle.edge_words.specs.Letters.{IsLetter};
ghost use Rattle.word_search.specs.Prefixes.{AreCounts, excess};

/// The counts with one more letter, which comes after `len` others.
pub(crate) fn counted(odd: [u32; 4], even: [u32; 4], len: usize, letter: u8) -> ([u32; 4], [u32; 4])
    requires letter { IsLetter letter }
    requires few { (slice_index odd letter < 255) × (slice_index even letter < 255) }
    ensures { (p : List ℕ) → length p ≡ len → AreCounts p odd even → AreCounts (p ++ letter ∷ []) result.0 result.1 }
{
    if len % 2 == 0 {
        (one_more(odd, letter), even)
    } else {
        (odd, one_more(even, letter))
    }
}

// The counts with one more of a letter.
fn one_more(mut counts: [u32; 4], letter: u8) -> [u32; 4]
    requires letter { IsLetter letter }
    requires few { slice_index counts letter < 255 }
    ensures { (x : ℕ) → IsLetter x → slice_index result x ≡ slice_index counts x + count_of x (letter ∷ []) }
{
    counts[letter as usize] += 1;
    counts
}

/// Whether the letters of one side are ahead of the other by more than there is room to make up for.
pub(crate) fn is_over(more: &[u32; 4], fewer: &[u32; 4], room: usize) -> bool
    ensures { IsTrue result ↔ room < excess more.now fewer.now }
{
    room < ahead(more, fewer, 1) + ahead(more, fewer, 2) + ahead(more, fewer, 3)
}

// By how much a letter is ahead.
fn ahead(more: &[u32; 4], fewer: &[u32; 4], letter: usize) -> usize
    requires { letter < 4 }
    ensures ahead { result ≡ slice_index more.now letter - slice_index fewer.now letter }
    ensures small { result < 2 ^ 32 }
{
    more[letter].saturating_sub(fewer[letter]) as usize
}
