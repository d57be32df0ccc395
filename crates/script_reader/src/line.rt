// Why a line is bad.
ghost use Rattle.std.specs.Prelude.{◌≡◌};
ghost use Rattle.std.specs.List.{list_all};
ghost use Rattle.script_reader.specs.Lines as spec;
ghost use Rattle.script_reader.specs.Lines.{is_line_byte};

/// How many bytes a line may have.
const MOST_BYTES: usize = 65_536;

/// A line of over 65,536 bytes.
const TOO_LONG: u32 = 5;

/// A line with a byte that no line may have.
const OTHER_BYTE: u32 = 6;

/// Whether each byte is a tab or one from 32 to 126.
fn has_line_bytes(line: &[u8]) -> bool
    ensures { result ≡ list_all is_line_byte line.now }
{
    line.iter()
        .all(|byte| *byte == b'\t' || 32 <= *byte && *byte <= 126)
}

/// Why a line is bad whatever it says.
pub fn line_reason(line: &[u8]) -> Option<u32>
    ensures { result ≡ spec.line_reason line.now }
{
    if line.len() > MOST_BYTES {
        Some(TOO_LONG)
    } else if has_line_bytes(line) {
        None
    } else {
        Some(OTHER_BYTE)
    }
}
