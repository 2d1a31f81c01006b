// A text that is cut at a byte.
ghost use Rattle.std.specs.Prelude.{◌≡◌, ◌<◌, [], ◌∷◌, length, IfSome, MatchOption};
ghost use Rattle.std.specs.List.{position, slice_split};
ghost use Rattle.quantity.specs.Bytes.{is_byte};

/// What stands before the first such byte, and what stands after it; None exactly where there is no
/// such byte. Taken again and again from what stands after it, this gives the parts of a text one
/// by one.
pub fn part_before(byte: u8, text: &[u8]) -> Option<(&[u8], &[u8])>
    ensures parts { MatchOption result (slice_split (is_byte byte) text.now ≡ text.now ∷ [])
        (λ cut. slice_split (is_byte byte) text.now
        ≡ cut.0.now ∷ slice_split (is_byte byte) cut.1.now) }
    ensures shorter { IfSome result (λ cut. length cut.1.now < length text.now) }
{
    let place = first_place(byte, text)?;
    Some((&text[..place], &text[place + 1..]))
}

fn first_place(byte: u8, text: &[u8]) -> Option<usize>
    ensures { result ≡ position (is_byte byte) text.now }
{
    text.iter().position(|c| byte == *c)
}
