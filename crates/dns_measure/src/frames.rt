//! Messages in a row, each after its length in two bytes (RFC 1035, 4.2.2).
ghost use Rattle.std.specs.Prelude.{◌<◌, ◌^◌, length, IfSome};

/// The message in front, and what follows it; none where the frame is cut off.
pub(crate) fn front<'a>(bytes: &'a [u8]) -> Option<(&'a [u8], &'a [u8])>
    requires { length bytes.now < 2 ^ 32 }
    ensures message { IfSome result (λ x. length x.0.now < 2 ^ 32) }
    ensures shorter { IfSome result (λ x. length x.1.now < length bytes.now) }
{
    match bytes {
        [high, low, rest @ ..] => {
            let size = usize::from(*high) * 256 + usize::from(*low);
            if rest.len() < size {
                return None;
            }
            let (message, after) = rest.split_at(size);
            Some((message, after))
        }
        _ => None,
    }
}

/// The number of the first frame that is cut off, from 1; none where all are whole.
pub(crate) fn cut_off(bytes: &[u8]) -> Option<u64>
    requires { length bytes.now < 2 ^ 32 }
{
    let mut number: u64 = 1;
    let mut rest = bytes;
    'frames: while !rest.is_empty() {
        match front(rest) {
            Some((_, after)) => {
                number = number.saturating_add(1);
                rest = after;
            }
            None => return Some(number),
        }
    }
    None
}
