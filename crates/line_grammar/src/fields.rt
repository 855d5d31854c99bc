//! The fields of a line.
ghost use Rattle.std.specs.Prelude.{◌≡◌, ◌==◌, List, ℕ, IfSome, IfNone, position};
ghost use Rattle.line_grammar.specs.Text.{space, IsTwoFields};

/// The fields of a line that has exactly two.
pub fn two_fields(line: &[u8]) -> Option<(&[u8], &[u8])>
    ensures found { IfSome result (λ fields. IsTwoFields line.now fields.0.now fields.1.now) }
    ensures none { IfNone result ((first second : List ℕ) → ¬ IsTwoFields line.now first second) }
{
    let at = first_space(line)?;
    let second = &line[at + 1..];
    match first_space(second) {
        Some(_) => None,
        None => Some((&line[..at], second)),
    }
}

// The place of the first space.
fn first_space(bytes: &[u8]) -> Option<usize>
    ensures { result ≡ position (λ byte. byte == space) bytes.now }
{
    bytes.iter().position(|byte| *byte == b' ')
}
