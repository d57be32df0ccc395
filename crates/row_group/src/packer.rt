use crate::arrange::row_order;
use crate::cells::Cells;
use crate::columns::{empty_columns, numbered_columns, put_packed, put_row, reserve_cells};
use crate::order::inverse;
use crate::pack::packed_by;
use crate::packed::Packed;
use cs_base::{Items, Memory};
use cs_types::{Row, Schema, Version};
use std::alloc::Global;
use std::marker::Model;

/// Rows on the way to a group, taken apart into columns. Contracts see how many columns it has, and the rows in the order
/// in which they were added, each with a cell for every column and its begin.
#[derive(Drop)]
pub struct Packer {
    /// A list of cells for each column.
    columns: Vec<Cells>,
    /// The begin of each row.
    begins: Vec<u64>,
}

impl Model for Packer {
    ghost use Rattle.std.specs.Prelude.{length as list_length};
    ghost use Rattle.row_group.specs.Packings.{Packing, source_rows, AreEven};

    ghost Value = { Packing };

    ghost view = { λ p. record { width = list_length p.columns.items; rows = source_rows p.columns.items p.begins.items } };

    ghost invariant = { λ p. AreEven p.columns.items (list_length p.begins.items) };
}

impl Packer {
    ghost use Rattle.std.specs.Prelude.{◌≡◌, ◌<◌, ◌++◌, ◌∷◌, ◌↔◌, [], All, length, map, replicate, IfOk, IfSome, IsNone, OnOk, OnErr};
    ghost use Rattle.cs_types.specs.Schemas.{IsSchema, IsRowOf};
    ghost use Rattle.row_group.specs.Rows.{padded_row, begun_above};
    ghost use Rattle.row_group.specs.Groups.{HoldsRows};
    ghost use Rattle.row_group.specs.Packings.{StandAt, IsOrderedBy, padded_at, source_rows, numbered};

    /// No rows, in so many columns.
    pub fn new(alloc: Global, width: usize) -> Result<Packer, Memory>
        ensures { IfOk result (λ packer. packer ≡ record { width = width; rows = [] }) }
    {
        Ok(Packer {
            columns: empty_columns(alloc, width)?,
            begins: Vec::new(alloc),
        })
    }

    /// So many rows, whose columns of numbers and NULLs are these, each with this begin. No cell is copied.
    pub fn of_columns(
        alloc: Global,
        columns: Vec<Vec<Option<i64>>>,
        count: usize,
        begin: u64,
    ) -> Result<Packer, Memory>
        requires { All (λ column. length column.items ≡ count) columns.items }
        ensures { IfOk result (λ packer. packer ≡ record { width = length columns.items; rows = source_rows (numbered columns.items) (replicate count begin) }) }
    {
        Ok(Packer {
            columns: numbered_columns(alloc, columns)?,
            begins: vec![in alloc; begin; count]?,
        })
    }

    /// The number of rows.
    pub fn len(&self) -> usize
        ensures { result ≡ length self.now.rows }
    {
        self.begins.len()
    }

    /// Makes room for so many rows more. It changes none.
    pub fn reserve(&mut self, more: usize) -> Result<(), Memory>
        ensures { self.new ≡ self.old }
    {
        self.begins.reserve(more)?;
        reserve_cells(&mut self.columns, more)
    }

    /// Adds a row with its begin, NULL in the columns past its end. After `Memory` nothing has changed.
    pub fn add(&mut self, row: &Row, begin: u64) -> Result<(), Memory>
        ensures ok { OnOk result (self.new ≡ record self.old { rows = self.old.rows ++ padded_row self.old.width row.now begin ∷ [] }) }
        ensures err { OnErr result (self.new ≡ self.old) }
    {
        let count = self.begins.len();
        self.begins.push(begin)?;
        match put_row(&mut self.columns, count, row) {
            Ok(()) => Ok(()),
            Err(refused) => {
                self.begins.truncate(count);
                Err(refused)
            }
        }
    }

    /// Adds the rows at some positions of a group, with their begins: NULL in a column that the group has not. After `Memory`
    /// nothing has changed.
    pub fn add_packed(&mut self, packed: &Packed, positions: &[usize]) -> Result<(), Memory>
        requires { All (λ position. position < length packed.now.rows) positions.now }
        ensures ok { OnOk result (self.new ≡ record self.old { rows = self.old.rows ++ map (padded_at self.old.width packed.now) positions.now }) }
        ensures err { OnErr result (self.new ≡ self.old) }
    {
        let count = self.begins.len();
        add_begins(&mut self.begins, packed, positions)?;
        match put_packed(&mut self.columns, count, packed, positions) {
            Ok(()) => Ok(()),
            Err(refused) => {
                self.begins.truncate(count);
                Err(refused)
            }
        }
    }

    /// Packs the rows into a group with the floor as its base: a begin at most the floor becomes the floor. None exactly
    /// where there is no row. Each row fits the schema.
    pub fn pack(self, schema: &Schema, floor: u64) -> Result<Option<Packed>, Memory>
        requires schema { IsSchema schema.now }
        requires width { self.width ≡ length schema.now.columns }
        requires fit { All (λ row. IsRowOf schema.now row.cells) self.rows }
        ensures none { IfOk result (λ packed. IsNone packed ↔ (self.rows ≡ [])) }
        ensures group { IfOk result (λ packed. IfSome packed (λ group. HoldsRows schema.now (map (begun_above floor) self.rows) floor group)) }
    {
        match self.ordered(schema, floor)? {
            None => Ok(None),
            Some((packed, _order)) => Ok(Some(packed)),
        }
    }

    /// The same, and with the group the position that each row has in it, in the order in which they were added.
    pub fn pack_placed(
        self,
        schema: &Schema,
        floor: u64,
    ) -> Result<Option<(Packed, Vec<usize>)>, Memory>
        requires schema { IsSchema schema.now }
        requires width { self.width ≡ length schema.now.columns }
        requires fit { All (λ row. IsRowOf schema.now row.cells) self.rows }
        ensures none { IfOk result (λ found. IsNone found ↔ (self.rows ≡ [])) }
        ensures group { IfOk result (λ found. IfSome found (λ placed. HoldsRows schema.now (map (begun_above floor) self.rows) floor placed.0)) }
        ensures positions { IfOk result (λ found. IfSome found (λ placed. StandAt (map (begun_above floor) self.rows) placed.0 placed.1.items)) }
    {
        let alloc = *self.begins.allocator();
        match self.ordered(schema, floor)? {
            None => Ok(None),
            Some((packed, order)) => {
                let positions = inverse(alloc, &order)?;
                Ok(Some((packed, positions)))
            }
        }
    }

    /// The same, with the place of each of the group's rows in the order in which they were added.
    fn ordered(self, schema: &Schema, floor: u64) -> Result<Option<(Packed, Vec<usize>)>, Memory>
        requires schema { IsSchema schema.now }
        requires width { self.width ≡ length schema.now.columns }
        requires fit { All (λ row. IsRowOf schema.now row.cells) self.rows }
        ensures none { IfOk result (λ found. IsNone found ↔ (self.rows ≡ [])) }
        ensures group { IfOk result (λ found. IfSome found (λ placed. HoldsRows schema.now (map (begun_above floor) self.rows) floor placed.0)) }
        ensures order { IfOk result (λ found. IfSome found (λ placed. IsOrderedBy (map (begun_above floor) self.rows) placed.1.items placed.0)) }
    {
        let Packer {
            columns,
            mut begins,
        } = self;
        if begins.is_empty() {
            return Ok(None);
        }
        raise(&mut begins, floor);
        let alloc = *begins.allocator();
        let (order, ranks) = row_order(alloc, &columns, &begins)?;
        let packed = packed_by(alloc, schema, columns, &ranks, &begins, &order, floor)?;
        Ok(Some((packed, order)))
    }
}

ghost use Rattle.std.specs.Prelude.{◌≡◌, ◌<◌, ◌++◌, ◌∷◌, ◌↔◌, [], not, filter, All, length, map, IfOk, IfSome, IsNone, OnOk, OnErr};
ghost use Rattle.cs_types.specs.Schemas.{IsSchema, IsRowOf};
ghost use Rattle.row_group.specs.Rows.{ended_by, begin_above, repacked, row_of};
ghost use Rattle.row_group.specs.Groups.{row_at, IsGroupOf};

/// Packs versions into a group. A version whose end is at most the floor is left out, and a begin at most the floor
/// becomes the floor. None exactly where no version is kept. The versions fit the schema; they may come in any order,
/// several of one key among them. `Memory` comes only where there is no room for the group or on the way to it. It takes
/// the time of a few sorts of so many numbers a column.
pub fn pack_rows(
    alloc: Global,
    schema: &Schema,
    versions: Items<Version>,
    floor: u64,
) -> Result<Option<Packed>, Memory>
    requires schema { IsSchema schema.now }
    requires fit { All (λ version. IsRowOf schema.now version.row) versions }
    ensures none { IfOk result (λ packed. IsNone packed ↔ (repacked versions floor ≡ [])) }
    ensures group { IfOk result (λ packed. IfSome packed (λ group. IsGroupOf schema.now versions floor group)) }
{
    let packer = kept(alloc, schema.columns.len(), versions, floor)?;
    packer.pack(schema, floor)
}

/// The rows of the versions that a group keeps: one that ended at the floor or before is left out.
fn kept(alloc: Global, width: usize, versions: Items<Version>, floor: u64) -> Result<Packer, Memory>
    ensures { IfOk result (λ packer. packer ≡ record { width = width; rows = map (row_of width) (filter (λ v. not (ended_by floor v.end)) versions) }) }
{
    let mut packer = Packer::new(alloc, width)?;
    packer.reserve(versions.len())?;
    for version in versions.as_slice() {
        keep(&mut packer, version, floor)?;
    }
    Ok(packer)
}

/// Adds a version's row, but none of a version that ended at the floor or before.
fn keep(packer: &mut Packer, version: &Version, floor: u64) -> Result<(), Memory>
    ensures { OnOk result (packer.new ≡ record packer.old { rows = packer.old.rows ++ map (row_of packer.old.width) (filter (λ v. not (ended_by floor v.end)) (version.now ∷ [])) }) }
{
    if has_ended(version.end, floor) {
        return Ok(());
    }
    packer.add(&version.row, version.begin)
}

/// Adds the begins of the rows at some positions of a group. After `Memory` nothing has changed.
fn add_begins(begins: &mut Vec<u64>, packed: &Packed, positions: &[usize]) -> Result<(), Memory>
    requires { All (λ position. position < length packed.now.rows) positions.now }
    ensures ok { OnOk result (begins.new.items ≡ begins.old.items ++ map (λ position. (row_at packed.now position).begin) positions.now) }
    ensures err { OnErr result (begins.new.items ≡ begins.old.items) }
{
    let mut more = begins_at(*begins.allocator(), packed, positions)?;
    begins.append(&mut more)?;
    Ok(())
}

/// The begins of the rows at some positions of a group.
fn begins_at(alloc: Global, packed: &Packed, positions: &[usize]) -> Result<Vec<u64>, Memory>
    requires { All (λ position. position < length packed.now.rows) positions.now }
    ensures { IfOk result (λ begins. begins.items ≡ map (λ position. (row_at packed.now position).begin) positions.now) }
{
    let mut begins = Vec::with_capacity(alloc, positions.len())?;
    for position in positions {
        begins.push(packed.begin(*position))?;
    }
    Ok(begins)
}

/// Makes each begin that is at most the floor the floor.
fn raise(begins: &mut Vec<u64>, floor: u64)
    ensures { begins.new.items ≡ map (begin_above floor) begins.old.items }
{
    for place in 0..begins.len() {
        begins[place] = raised(begins[place], floor);
    }
}

/// Whether a version with this end ended at the floor or before.
fn has_ended(end: Option<u64>, floor: u64) -> bool
    ensures { result ≡ ended_by floor end }
{
    match end {
        None => false,
        Some(end) => end <= floor,
    }
}

/// A begin, or the floor where it is at most that.
fn raised(begin: u64, floor: u64) -> u64
    ensures { result ≡ begin_above floor begin }
{
    if begin <= floor { floor } else { begin }
}
