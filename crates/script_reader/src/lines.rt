// The lines of a script, one after the other.
ghost use Rattle.std.specs.Prelude.{◌≡◌, ◌<◌, ◌==◌, not, length, IfSome};
ghost use Rattle.std.specs.List.{prefix_len};
ghost use Rattle.std.specs.Option.{option_map};
ghost use Rattle.script_reader.specs.Lines.{trimmed, lines};
ghost use Rattle.script_reader.specs.Next.{joined};

/// The piece without a byte 13 at its end.
fn trim(piece: &[u8]) -> &[u8]
    ensures { result.now ≡ trimmed piece.now }
{
    match piece.strip_suffix(b"\r") {
        Some(front) => front,
        None => piece,
    }
}

/// The place of the first byte 10, and the length where there is none.
fn cut_at(bytes: &[u8]) -> usize
    ensures { result ≡ prefix_len (λ b. not (b == 10)) bytes.now }
{
    let mut at = 0;
    while at < bytes.len() && bytes[at] != b'\n' {
        at += 1;
    }
    at
}

/// The first line, and what stands after it; None where there is no line.
pub fn next_line(bytes: &[u8]) -> Option<(&[u8], &[u8])>
    ensures shorter { IfSome result (λ x. length x.1.now < length bytes.now) }
    ensures lines { joined (option_map (λ x. (x.0.now, x.1.now)) result) ≡ lines bytes.now }
{
    let at = cut_at(bytes);
    let line = trim(&bytes[..at]);
    if at < bytes.len() {
        return Some((line, &bytes[at + 1..]));
    }
    if line.is_empty() {
        return None;
    }
    Some((line, &bytes[at..]))
}
