//! The laws of the texts of works and of events, as functions that do nothing.
//!
//! `works_are_told_apart`: no two works of movers have one text, and no line of a work, which is its text and the byte 10, is a
//! prefix of that of another, so the text tells the work to who reads it back. `lines_hold_no_end`: no line of an event holds a byte 10,
//! so in the text of a log that byte stands only at the ends of lines. They stand on `cs_model`, which defines the texts.
#![tactic(auto)]

ghost use Rattle.std.specs.Prelude.{◌≡◌, ℕ, All};
ghost use mathlib.Core.List.{IsPrefix};
ghost use Rattle.cs_types.specs.declared.Schema.{Schema};
ghost use Rattle.cs_model.specs.declared.entry.Entry.{Entry};
ghost use Rattle.cs_model.specs.declared.work.Work.{Work};
ghost use Rattle.cs_model.specs.Text.{entry_lines};
ghost use Rattle.cs_model.specs.Works.{work_text};
ghost use Rattle.text_laws.specs.Lines.{FitsWords, work_line, IsOneLine, HasTextBytes};

/// No two works have one text, and no line of a work is a prefix of that of another. A text without its byte 10 may be one:
/// `claim flush 12` begins with `claim flush 1`.
pub fn works_are_told_apart()
    ensures text { (work other : Work) → FitsWords work → FitsWords other → work_text work ≡ work_text other → work ≡ other }
    ensures line { (work other : Work) → FitsWords work → FitsWords other → IsPrefix (work_line work) (work_line other) → work ≡ other }
{}

/// No line of an event holds a byte 10, where the texts that it shows have only bytes that a text may have. So who cuts the text
/// of a log after each byte 10 has its lines.
pub fn lines_hold_no_end()
    ensures { (schema : Schema) (event place : ℕ) (entry : Entry) → HasTextBytes schema entry → All IsOneLine (entry_lines schema event place entry) }
{}
