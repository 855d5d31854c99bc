ghost use Rattle.std.specs.Prelude.{◌↔◌, IsTrue};
ghost use Rattle.edge_words.specs.Stable.{IsBalanced, IsStable};

/// Whether each letter stands equally often at odd and at even places, in a list of any length.
pub fn is_stable(letters: &[u8]) -> bool
    ensures { IsTrue result ↔ IsStable letters.now }
{
    is_balanced(letters, 1) && is_balanced(letters, 2) && is_balanced(letters, 3)
}

/// Whether a letter stands equally often at odd and at even places.
fn is_balanced(letters: &[u8], letter: u8) -> bool
    ensures { IsTrue result ↔ IsBalanced letter letters.now }
{
    let mut at_odd = 0usize;
    let mut at_even = 0usize;
    for (index, found) in letters.iter().enumerate() {
        if *found == letter {
            if index % 2 == 0 {
                at_odd += 1;
            } else {
                at_even += 1;
            }
        }
    }
    at_odd == at_even
}
