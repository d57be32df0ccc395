// The outcomes of writes.
ghost use Rattle.std.specs.Prelude.{◌≡◌, [], false, length, map, true, All, List, None};
ghost use Rattle.cs_types.specs.declared.Value.{Value};
ghost use Rattle.cs_types.specs.Schemas.{IsSchema};
ghost use Rattle.cs_model.specs.Answers.{writes};
ghost use Rattle.cs_model.specs.Kinds.{is_write};
ghost use Rattle.group_book.specs.Commits.{Sizes};
ghost use Rattle.edit_laws.specs.Edits.{edits_of};
ghost use Rattle.log_laws.specs.Started.{Begun, seen_by};
ghost use Rattle.row_work.specs.Gives.{RefusesRows};
ghost use Rattle.row_work.specs.Inserts.{write_of};
ghost use Rattle.statement_core.specs.Counted.{outcome_counts};
ghost use Rattle.statement_core.specs.Outcomes.{GivesOn};
ghost use Rattle.statement_core.specs.Terms.{sizes_of, AreTerms};
ghost use Rattle.statement_work.specs.Clerks.{NeedsParcel};
ghost use Rattle.tuple_mover.specs.Inserts.{AreRowsOf, FitsIn};

use cs_base::Memory;
use cs_model::{Refusal, Reply};
use row_work::{InsertedRows, LoadedColumns, WriteRefusal};
use statement_core::{Outcome, Terms};
use std::alloc::Global;
use tuple_mover::{parcel_of, parcel_of_columns};
use write_set::Write;

/// The reply of a value refusal.
pub fn valued(number: u32, row: u64, column: u32) -> Outcome
    ensures { result ≡ Outcome.Answer (Reply.Refused (Refusal.Valued number row column)) }
{
    Outcome::Answer(Reply::Refused(Refusal::Valued {
        number,
        row,
        column,
    }))
}

/// The outcome of a write that was refused.
pub fn refused(refusal: WriteRefusal) -> Outcome
    ensures untold { outcome_counts result ≡ None }
    ensures gives { (begun : Begun) → begun.short ≡ false → is_write begun.bound ≡ true → RefusesRows (writes begun.schema (seen_by begun) begun.bound) refusal → (sizes : Sizes) → GivesOn sizes begun result }
{
    match refusal {
        WriteRefusal::Value {
            number,
            row,
            column,
        } => valued(number, row, column),
        WriteRefusal::Memory => Outcome::Short,
    }
}

/// The outcome of writes: where the transaction ends with the statement and no key is present, with the parcel that their commit
/// takes.
pub fn written(alloc: Global, terms: &Terms, implicit: bool, rows: InsertedRows) -> Outcome
    requires terms { AreTerms terms.now }
    requires schema { IsSchema terms.now.schema.value }
    requires fit { All (FitsIn terms.now.schema.value) (edits_of rows.writes.items) }
    ensures untold { outcome_counts result ≡ None }
    ensures gives { (begun : Begun) → begun.implicit ≡ implicit → begun.schema ≡ terms.now.schema.value → NeedsParcel (sizes_of terms.now) begun rows.writes.items rows.present.items rows.affected → GivesOn (sizes_of terms.now) begun result }
{
    let InsertedRows {
        writes,
        present,
        affected,
    } = rows;
    let parcel = if implicit && present.is_empty() {
        match parcel_of(
            alloc,
            &terms.schema,
            &writes,
            terms.group_rows,
            terms.direct_rows,
        ) {
            Ok(parcel) => Some(parcel),
            Err(Memory) => return Outcome::Short,
        }
    } else {
        None
    };
    Outcome::Writes {
        writes,
        present,
        affected,
        parcel,
    }
}

/// The outcome of the writes of an UPDATE or a DELETE, which make no key stand twice.
pub fn changed(alloc: Global, terms: &Terms, implicit: bool, writes: Vec<Write>) -> Outcome
    requires terms { AreTerms terms.now }
    requires schema { IsSchema terms.now.schema.value }
    requires fit { All (FitsIn terms.now.schema.value) (edits_of writes.items) }
    ensures untold { outcome_counts result ≡ None }
    ensures gives { (begun : Begun) → begun.implicit ≡ implicit → begun.schema ≡ terms.now.schema.value → NeedsParcel (sizes_of terms.now) begun writes.items [] (length writes.items) → GivesOn (sizes_of terms.now) begun result }
{
    let affected = writes.len() as u64;
    let present = Vec::new(alloc);
    written(
        alloc,
        terms,
        implicit,
        InsertedRows {
            writes,
            present,
            affected,
        },
    )
}

/// The outcome of the rows of an INSERT by columns, which are put at new keys in a transaction that ends with the statement: with the
/// parcel that their commit takes.
pub fn packed(alloc: Global, terms: &Terms, rows: LoadedColumns) -> Outcome
    requires terms { AreTerms terms.now }
    requires schema { IsSchema terms.now.schema.value }
    requires rows { (written : List (List Value)) × AreRowsOf terms.now.schema.value rows.keys.items rows.columns.items written }
    ensures untold { outcome_counts result ≡ None }
    ensures gives { (begun : Begun) (written : List (List Value)) → begun.implicit ≡ true → begun.schema ≡ terms.now.schema.value → AreRowsOf terms.now.schema.value rows.keys.items rows.columns.items written
        → NeedsParcel (sizes_of terms.now) begun (map (write_of terms.now.schema.value) written) [] (length written) → GivesOn (sizes_of terms.now) begun result }
{
    let LoadedColumns { keys, columns } = rows;
    match parcel_of_columns(
        alloc,
        &terms.schema,
        &keys,
        columns,
        terms.group_rows,
        terms.direct_rows,
    ) {
        Ok(parcel) => Outcome::Load { keys, parcel },
        Err(Memory) => Outcome::Short,
    }
}
