// Lines under a reply.
ghost use Rattle.std.specs.Prelude.{◌≡◌, ◌++◌, All, OnOk, map};
ghost use Rattle.cs_model.specs.Text.{lines_text};

use cs_base::Memory;
use cs_types::{Line, Schema};

/// What has a line of its own under a reply.
pub trait ReplyLine {
    ghost use Rattle.std.specs.Prelude.{ℕ, List};
    ghost use Rattle.cs_types.specs.declared.Schema.{Schema};

    /// Whether its line can be printed over a table.
    ghost is_printable: { Schema → Self → Type 0 };

    /// Its line over a table.
    ghost line_of: { Schema → Self → List ℕ };

    /// Adds its line, without the byte 10 at its end.
    fn append_to(&self, schema: &Schema, line: &mut Line) -> Result<(), Memory>
        requires { is_printable schema.now self.now }
        ensures { OnOk result (line.new ≡ line.old ++ line_of schema.now self.now) };
}

/// Adds the line of each item, with the byte 10 after it.
pub fn append_lines<T: ReplyLine>(
    schema: &Schema,
    items: &[T],
    line: &mut Line,
) -> Result<(), Memory>
    requires { All (T.is_printable schema.now) items.now }
    ensures { OnOk result (line.new ≡ line.old ++ lines_text (map (T.line_of schema.now) items.now)) }
{
    for item in items {
        item.append_to(schema, line)?;
        line.append(b"\n")?;
    }
    Ok(())
}
