//! The lines of a text.

ghost use Rattle.std.specs.Prelude.{◌≡◌, ◌<◌, ◌≤◌, ◌==◌, ◌∷◌, not, length, option_map, IfSome};
ghost use Rattle.std.specs.List.{prefix_len};
ghost use Rattle.lit_read.specs.Lines.{lines_of, lines_from};

/// How many bytes stand before the first byte 10.
fn line_len(text: &[u8]) -> usize
    ensures value { result ≡ prefix_len (λ b. not (b == 10)) text.now }
    ensures within { result ≤ length text.now }
{
    text.iter().take_while(|byte| **byte != b'\n').count()
}

/// The first line of a text, and the bytes after its byte 10, if there are any.
#[tactic(auto, using(crate::proofs::LineLemmas::lines_split))]
pub fn split_line(text: &[u8]) -> (&[u8], Option<&[u8]>)
    ensures value { lines_of text.now ≡ result.0.now ∷ lines_from (option_map (λ rest. rest.now) result.1) }
    ensures shorter { IfSome result.1 (λ rest. length rest.now < length text.now) }
{
    let (line, after) = text.split_at(line_len(text));
    match after {
        [] | [_] => (line, None),
        [_, rest @ ..] => (line, Some(rest)),
    }
}
