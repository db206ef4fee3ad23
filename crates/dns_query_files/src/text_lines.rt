//! A text as lines.
ghost use Rattle.std.specs.Prelude.{◌≡◌, ◌∷◌, ◌<◌, ◌==◌, length, position, IfSome};
ghost use Rattle.std.specs.Option.{option_copied};
ghost use Rattle.dns_query_files.specs.TextLines.{lines_left, lines_of};

// Where the first line of a text ends that isn't its last.
fn end_of_line(text: &[u8]) -> Option<usize>
    ensures value { result ≡ position (λ b. b == 10) text.now }
    ensures within { IfSome result (λ at. at < length text.now) }
{
    text.iter().position(|b| *b == b'\n')
}

/// The first line of a text, and what stands behind its LF; None where it is the last line.
#[tactic(auto, using(dns_session::proofs::PieceLemmas::cut_none, dns_session::proofs::PieceLemmas::cut_parts))]
pub(crate) fn cut_line(text: &[u8]) -> (&[u8], Option<&[u8]>)
    ensures cut { lines_of text.now ≡ result.0.now ∷ lines_left (option_copied result.1) }
    ensures shorter { IfSome result.1 (λ rest. length rest.now < length text.now) }
{
    match end_of_line(text) {
        Some(at) => (&text[..at], Some(&text[at + 1..])),
        None => (text, None),
    }
}
