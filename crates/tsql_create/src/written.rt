//! What a setup statement writes: its columns and its keys.

ghost use Rattle.std.specs.Prelude.{◌≡◌, ◌++◌, length, IfOk, OnOk, IsTrue};
ghost use Rattle.tsql_create.specs.Written.{null_place, not_null_place, first_null, first_not_null, marked_keys, marked_key, part_columns, part_keys, columns, keys, named_column, key_place, key_index, key_shown};

use crate::tree::{MarkTree, TablePartTree};
use cs_base::{Items, Memory, is_same_name};
use cs_types::copy_bytes;
use std::alloc::Global;
use tsql_trees::{NameTree, TypeTree};

/// A column as it is written.
#[derive(Drop)]
pub struct WrittenColumn {
    /// Its name.
    pub name: NameTree,
    /// Its type.
    pub kind: TypeTree,
    /// The place of its first NULL.
    pub null: Option<u32>,
    /// The place of its first NOT NULL.
    pub not_null: Option<u32>,
}

/// A key as it is written. The place is that of the word PRIMARY.
#[derive(Drop)]
pub enum WrittenKey {
    /// In the part of the column with this number, counted from 0.
    OfColumn { place: u32, column: usize },
    /// In a part of its own, by the column's name.
    Named { place: u32, name: NameTree },
}

/// The columns and the keys of a setup statement, each in order.
#[derive(Drop)]
pub struct Written {
    /// The columns, whatever their number.
    pub columns: Items<WrittenColumn>,
    /// The keys, of which a statement without faults has one.
    pub keys: Items<WrittenKey>,
}

fn null_place(mark: MarkTree) -> Option<u32>
    ensures { result ≡ null_place mark }
{
    match mark {
        MarkTree::Null { place } => Some(place),
        MarkTree::NotNull { .. } | MarkTree::Key { .. } => None,
    }
}

fn not_null_place(mark: MarkTree) -> Option<u32>
    ensures { result ≡ not_null_place mark }
{
    match mark {
        MarkTree::NotNull { place } => Some(place),
        MarkTree::Null { .. } | MarkTree::Key { .. } => None,
    }
}

fn first_null(marks: &[MarkTree]) -> Option<u32>
    ensures { result ≡ first_null marks.now }
{
    for mark in marks {
        if let Some(place) = null_place(*mark) {
            return Some(place);
        }
    }
    None
}

fn first_not_null(marks: &[MarkTree]) -> Option<u32>
    ensures { result ≡ first_not_null marks.now }
{
    for mark in marks {
        if let Some(place) = not_null_place(*mark) {
            return Some(place);
        }
    }
    None
}

fn copy_name(name: &NameTree) -> Result<NameTree, Memory>
    ensures { IfOk result (λ copied. copied ≡ name.now) }
{
    let bytes = copy_bytes(&name.bytes)?;
    Ok(NameTree {
        place: name.place,
        bytes,
    })
}

/// Adds a column's key where the mark is one.
fn add_marked_key(keys: &mut Items<WrittenKey>, column: usize, mark: MarkTree) -> Result<(), Memory>
    ensures { OnOk result (keys.new ≡ keys.old ++ marked_key column mark) }
{
    match mark {
        MarkTree::Key { place } => keys.push(WrittenKey::OfColumn { place, column }),
        MarkTree::Null { .. } | MarkTree::NotNull { .. } => Ok(()),
    }
}

/// Adds the keys that stand in a column's part.
fn add_marked_keys(
    keys: &mut Items<WrittenKey>,
    column: usize,
    marks: &[MarkTree],
) -> Result<(), Memory>
    ensures { OnOk result (keys.new ≡ keys.old ++ marked_keys column marks.now) }
{
    for mark in marks {
        add_marked_key(keys, column, *mark)?;
    }
    Ok(())
}

impl Written {
    /// Adds what a part writes.
    fn add(&mut self, part: &TablePartTree) -> Result<(), Memory>
        ensures columns { OnOk result (self.new.columns ≡ self.old.columns ++ part_columns part.now) }
        ensures keys { OnOk result (self.new.keys ≡ self.old.keys ++ part_keys (length self.old.columns) part.now) }
    {
        match part {
            TablePartTree::Column { name, kind, marks } => {
                add_marked_keys(&mut self.keys, self.columns.len(), marks.as_slice())?;
                self.columns.push(WrittenColumn {
                    name: copy_name(name)?,
                    kind: *kind,
                    null: first_null(marks.as_slice()),
                    not_null: first_not_null(marks.as_slice()),
                })
            }
            TablePartTree::Key { place, name } => self.keys.push(WrittenKey::Named {
                place: *place,
                name: copy_name(name)?,
            }),
            TablePartTree::Index { .. } => Ok(()),
        }
    }

    /// What the parts write.
    pub fn new(alloc: Global, parts: &[TablePartTree]) -> Result<Written, Memory>
        ensures columns { IfOk result (λ written. written.columns ≡ columns parts.now) }
        ensures keys { IfOk result (λ written. written.keys ≡ keys 0 parts.now) }
    {
        let mut written = Written {
            columns: Items::new(alloc),
            keys: Items::new(alloc),
        };
        for part in parts {
            written.add(part)?;
        }
        Ok(written)
    }
}

/// The number of the first column of a name.
fn named_column(columns: &[WrittenColumn], name: &[u8]) -> Option<usize>
    ensures { result ≡ named_column name.now columns.now }
{
    columns
        .iter()
        .position(|column| is_same_name(column.name.bytes.as_slice(), name))
}

impl WrittenKey {
    /// The place of the word PRIMARY.
    pub fn place(&self) -> u32
        ensures { result ≡ key_place self.now }
    {
        match self {
            WrittenKey::OfColumn { place, .. } | WrittenKey::Named { place, .. } => *place,
        }
    }

    /// The place of the token that makes a column the key: the word PRIMARY in the column's part, the name in a key part.
    pub fn shown(&self) -> u32
        ensures { result ≡ key_shown self.now }
    {
        match self {
            WrittenKey::OfColumn { place, .. } => *place,
            WrittenKey::Named { name, .. } => name.place,
        }
    }

    /// The number of the column that is the key.
    pub fn index(&self, columns: &[WrittenColumn]) -> Option<usize>
        ensures { result ≡ key_index columns.now self.now }
    {
        match self {
            WrittenKey::OfColumn { column, .. } => Some(*column),
            WrittenKey::Named { name, .. } => named_column(columns, name.bytes.as_slice()),
        }
    }
}
