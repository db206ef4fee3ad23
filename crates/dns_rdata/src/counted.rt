//! Bytes behind a byte that counts them.
ghost use Rattle.std.specs.Prelude.{◌≡◌, ◌<◌, IfSome, length};
ghost use Rattle.std.specs.Option.{option_map};
ghost use Rattle.dns_model.specs.Shapes.{counted_in};

// The bytes that a length byte at the front counts, and the bytes after them.
#[tactic(auto, unfolding(dns_model::specs::Shapes::counted_in))]
pub(crate) fn counted_front(bytes: &[u8]) -> Option<(&[u8], &[u8])>
    ensures { option_map (λ p. (p.0.now, p.1.now)) result ≡ counted_in bytes.now }
{
    let (size, rest) = bytes.split_first()?;
    let size = usize::from(*size);
    if size > rest.len() {
        return None;
    }
    Some(rest.split_at(size))
}
