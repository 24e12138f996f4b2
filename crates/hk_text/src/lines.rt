//! A text line by line.

ghost use Rattle.std.specs.Prelude.{◌≡◌, ◌<◌, ◌≤◌, ◌==◌, ◌∷◌, not, length};
ghost use Rattle.std.specs.List.{prefix_len};
ghost use Rattle.hk_text.specs.Lines.{lines};

/// The first line of a text, without its line end, and the bytes after that line end.
pub fn split_line(bytes: &[u8]) -> (&[u8], &[u8])
    requires { 0 < length bytes.now }
    ensures first { lines bytes.now ≡ result.0.now ∷ lines result.1.now }
    ensures inside { length result.0.now ≤ length bytes.now }
    ensures shorter { length result.1.now < length bytes.now }
{
    let (line, rest) = bytes.split_at(line_length(bytes));
    match rest.split_first() {
        None => (line, rest),
        Some((_, after)) => (line, after),
    }
}

/// How many bytes stand before the first line end.
fn line_length(bytes: &[u8]) -> usize
    ensures { result ≡ prefix_len (λ byte. not (byte == 10)) bytes.now }
{
    bytes.iter().take_while(|byte| **byte != b'\n').count()
}
