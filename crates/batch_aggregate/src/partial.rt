//! Partial answers.

ghost use Rattle.std.specs.Prelude.{◌≡◌, ◌++◌, ◌∷◌, [], true, All, IfOk, OnOk, List, map};
ghost use Rattle.cs_types.specs.declared.Value.{Value};
ghost use Rattle.cs_model.specs.Groups as groups;
ghost use Rattle.cs_model.specs.Queries as answers;
ghost use Rattle.cs_model.specs.Queries.{Gives};
ghost use Rattle.batch_aggregate.specs.Standing.{StandsFor};
ghost use Rattle.batch_aggregate.specs.Tallies.{tally_of};

use crate::entries::{Entries, add_all, add_row, add_tallies, no_rows};
use crate::shown::{grouped_answer, plain_answer};
use crate::tally::Tallies;
use cs_base::{Items, Memory};
use cs_model::{AnswerRefusal, Pred, Query, Truth};
use cs_predicate::truth;
use cs_types::{Loose, Row, Schema};
use std::alloc::Global;

/// What is known of the answer of a query after some rows. It stands for the list of the rows added to it; it keeps the
/// tallies of their groups, whatever the order of the rows, and in a query without groups copies of the rows that the filter
/// keeps.
#[derive(Drop)]
pub struct Partial<'a> {
    schema: &'a Schema,
    query: &'a Query,
    rows: Vec<Row>,
    groups: Entries,
    alloc: Global,
}

/// Whether a condition keeps a row of a schema: it is True there, or there is no condition.
pub fn keeps(schema: &Schema, condition: &Option<Pred>, row: &Row) -> bool
    ensures { result ≡ answers.keeps schema.now condition.now row.now }
{
    match condition {
        Some(pred) => truth(pred, row, schema) == Truth::True,
        None => true,
    }
}

impl<'a> Partial<'a> {
    /// What is known after no rows. Exactly in a query with an aggregate and without grouping columns there is a group then.
    pub fn new(alloc: Global, schema: &'a Schema, query: &'a Query) -> Result<Partial<'a>, Memory>
        ensures schema { IfOk result (λ partial. partial.schema.now ≡ schema.now) }
        ensures query { IfOk result (λ partial. partial.query.now ≡ query.now) }
        ensures empty { IfOk result (λ partial. StandsFor partial []) }
    {
        Ok(Partial {
            schema,
            query,
            rows: Vec::new(alloc),
            groups: no_rows(alloc, query)?,
            alloc,
        })
    }

    /// The query.
    pub fn query(&self) -> &'a Query
        ensures { result.now ≡ self.now.query.now }
    {
        self.query
    }

    /// Adds a row. After `Memory` what it stands for is not known.
    pub fn add(&mut self, row: &Row) -> Result<(), Memory>
        ensures schema { self.new.schema.now ≡ self.old.schema.now }
        ensures query { self.new.query.now ≡ self.old.query.now }
        ensures added { (rows : List (List Value)) → StandsFor self.old rows → OnOk result (StandsFor self.new (rows ++ row.now ∷ [])) }
    {
        if !keeps(self.schema, &self.query.filter, row) {
            return Ok(());
        }
        if self.query.grouped {
            return add_row(self.alloc, &mut self.groups, self.query, row);
        }
        self.rows.push(row.copy()?)?;
        Ok(())
    }

    /// Adds rows of one group at once, by the group's cells and the tallies of these rows: the filter keeps each of them, and
    /// where there is none the query has no grouping columns. After `Memory` what it stands for is not known.
    pub fn add_group(&mut self, cells: Row, tallies: Tallies) -> Result<(), Memory>
        ensures schema { self.new.schema.now ≡ self.old.schema.now }
        ensures query { self.new.query.now ≡ self.old.query.now }
        ensures added { (rows more : List (List Value)) → self.old.query.now.grouped ≡ true → StandsFor self.old rows
            → All (λ row. answers.keeps self.old.schema.now self.old.query.now.filter row ≡ true) more
            → All (λ row. groups.cells_of self.old.query.now.groups row ≡ cells) more
            → map (tally_of more) self.old.query.now.items ≡ tallies
            → (more ≡ [] → (self.old.query.now.groups ≡ []) × (cells ≡ [])) → OnOk result (StandsFor self.new (rows ++ more)) }
    {
        add_tallies(&mut self.groups, cells, tallies)
    }

    /// Adds the rows of another partial answer of the same query. After `Memory` what it stands for is not known.
    pub fn merge(&mut self, other: Partial<'a>) -> Result<(), Memory>
        ensures schema { self.new.schema.now ≡ self.old.schema.now }
        ensures query { self.new.query.now ≡ self.old.query.now }
        ensures merged { (rows more : List (List Value)) → other.entry.schema.now ≡ self.old.schema.now → other.entry.query.now ≡ self.old.query.now
            → StandsFor self.old rows → StandsFor other.entry more → OnOk result (StandsFor self.new (rows ++ more)) }
    {
        let Partial {
            schema: _,
            query: _,
            rows,
            groups,
            alloc: _,
        } = other;
        if self.query.grouped {
            return add_all(self.alloc, &mut self.groups, groups);
        }
        let mut rows = rows;
        self.rows.append(&mut rows)?;
        Ok(())
    }

    /// The answer of the query over the rows added. `Overflow` at the first row of the answer and its first item whose
    /// whole count or sum is out of the range of its type; `Memory` where there is no room.
    pub fn result(self) -> Result<Items<Items<Loose>>, AnswerRefusal>
        ensures { (rows : List (List Value)) → StandsFor self.entry rows → Gives result (answers.answer self.entry.schema.now self.entry.query.now rows) }
    {
        let Partial {
            schema,
            query,
            rows,
            groups,
            alloc,
        } = self;
        if query.grouped {
            grouped_answer(alloc, schema, query, groups)
        } else {
            Ok(plain_answer(alloc, schema, query, rows)?)
        }
    }
}

/// The answer of a query over rows. `Overflow` at the first row of the answer and its first item whose whole count or sum is
/// out of the range of its type; `Memory` where there is no room.
pub fn answer(
    alloc: Global,
    schema: &Schema,
    query: &Query,
    rows: &[Row],
) -> Result<Items<Items<Loose>>, AnswerRefusal>
    ensures { Gives result (answers.answer schema.now query.now rows.now) }
{
    let mut partial = Partial::new(alloc, schema, query)?;
    for row in rows {
        partial.add(row)?;
    }
    partial.result()
}
