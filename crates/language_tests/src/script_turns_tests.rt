use cs_base::{Items, Memory};
use cs_model::{Bound, Refusal};
use cs_types::{Bytes, Column, ColumnType, Schema};
use script_turns::bind_text;
use std::alloc::Global;
use std::process::Abort;

/// What a text means, in short.
#[derive(Clone, Copy, Debug, PartialEq, Eq)]
enum Meant {
    Groups,
    Segments,
    Query,
    /// STATISTICS IO on or off.
    Setting(bool),
    /// REORGANIZE, and whether the open store is closed.
    Reorganize(bool),
    /// The number and the place of a refusal.
    Refused(u32, u32),
    Other,
}

use Meant::{Groups, Other, Query, Refused, Reorganize, Segments, Setting};

fn bytes(alloc: Global, text: &[u8]) -> Result<Bytes, Memory> {
    let mut bytes = Items::new(alloc);
    for byte in text {
        bytes.push(*byte)?;
    }
    Ok(bytes)
}

/// A table of this name with the key column `k`.
fn table(alloc: Global, name: &[u8]) -> Result<Schema, Memory> {
    let mut columns = Items::new(alloc);
    columns.push(Column {
        name: bytes(alloc, b"k")?,
        kind: ColumnType::Int,
        nullable: false,
    })?;
    Ok(Schema {
        name: bytes(alloc, name)?,
        columns,
        key: 0,
    })
}

fn outcome(bound: &Bound) -> Meant {
    match bound {
        Bound::GroupReport => Groups,
        Bound::SegmentReport => Segments,
        Bound::Select(_) => Query,
        Bound::Statistics(on) => Setting(*on),
        Bound::Reorganize { all } => Reorganize(*all),
        Bound::Refused(Refusal::Reading { number, at }) => Refused(*number, *at),
        _ => Other,
    }
}

/// Each text means what stands beside it at a table.
fn check_texts(
    rt: &impl Abort,
    alloc: Global,
    schema: &Schema,
    cases: &[(&[u8], Meant)],
) -> Result<(), Memory> {
    for (text, want) in cases {
        assert!(rt; text.len() <= 131_072);
        let bound = bind_text(alloc, schema, text)?;
        let meant = outcome(&bound);
        // What is let go by a call has a short proof, and what is let go at the end of its scope a long one.
        drop(bound);
        assert!(rt; meant == *want, "{meant:?} at {text:?}");
    }
    Ok(())
}

/// Each text means what stands beside it at a table of this name.
fn check(
    rt: &impl Abort,
    alloc: Global,
    name: &[u8],
    cases: &[(&[u8], Meant)],
) -> Result<(), Memory> {
    let schema = table(alloc, name)?;
    check_texts(rt, alloc, &schema, cases)
}

static REPORTS: [(&[u8], Meant); 10] = [
    (
        b"SELECT * FROM sys.dm_db_column_store_row_group_physical_stats",
        Groups,
    ),
    (
        b"select * from [SYS].[DM_db_column_store_row_group_physical_stats] ;",
        Groups,
    ),
    (b"SELECT * FROM sys.column_store_segments", Segments),
    (b"SELECT * FROM Sys . Column_Store_Segments", Segments),
    (
        b"SELECT k FROM sys.column_store_segments",
        Refused(50001, 1),
    ),
    (
        b"SELECT COUNT(*) FROM sys.column_store_segments",
        Refused(50001, 1),
    ),
    (
        b"SELECT * FROM sys.column_store_segments WHERE x = 1",
        Refused(50001, 1),
    ),
    (
        b"SELECT * FROM sys.column_store_segments GROUP BY k",
        Refused(50001, 1),
    ),
    (
        b"SELECT * FROM sys.column_store_segments ORDER BY k",
        Refused(50001, 1),
    ),
    (
        b"SELECT * FROM sys.column_store_segments WHERE",
        Refused(102, 46),
    ),
];

#[test]
fn a_report_is_bound_by_select_of_all(rt: HostRuntime) -> Result<(), Memory> {
    check(&rt, rt.alloc(), b"t", &REPORTS)
}

static BEHIND_SYS: [(&[u8], Meant); 8] = [
    (b"SELECT * FROM column_store_segments", Refused(208, 15)),
    (b"SELECT * FROM dbo.column_store_segments", Refused(208, 15)),
    (b"SELECT * FROM sys.column_store_segment", Refused(208, 15)),
    (b"SELECT * FROM sys.t", Query),
    (
        b"INSERT INTO sys.column_store_segments VALUES (1)",
        Refused(208, 13),
    ),
    (
        b"UPDATE sys.column_store_segments SET x = 1",
        Refused(208, 8),
    ),
    (b"DELETE FROM sys.column_store_segments", Refused(208, 13)),
    (
        b"ALTER INDEX ALL ON sys.column_store_segments REORGANIZE",
        Refused(208, 20),
    ),
];

#[test]
fn a_report_stands_behind_sys_in_a_select_alone(rt: HostRuntime) -> Result<(), Memory> {
    check(&rt, rt.alloc(), b"t", &BEHIND_SYS)
}

static NAMED_AS_A_REPORT: [(&[u8], Meant); 6] = [
    (b"SELECT * FROM sys.column_store_segments", Segments),
    (
        b"SELECT k FROM sys.column_store_segments",
        Refused(50001, 1),
    ),
    (b"SELECT k FROM column_store_segments", Query),
    (b"SELECT k FROM dbo.COLUMN_STORE_SEGMENTS", Query),
    (b"DELETE FROM sys.column_store_segments", Other),
    (
        b"ALTER INDEX ALL ON sys.column_store_segments REORGANIZE",
        Reorganize(false),
    ),
];

#[test]
fn a_table_may_have_the_name_of_a_report(rt: HostRuntime) -> Result<(), Memory> {
    check(
        &rt,
        rt.alloc(),
        b"column_store_segments",
        &NAMED_AS_A_REPORT,
    )
}

static SETTINGS: [(&[u8], Meant); 4] = [
    (b"SET STATISTICS IO ON", Setting(true)),
    (b"set statistics io off", Setting(false)),
    (b"SET STATISTICS TIME ON", Refused(102, 16)),
    (b"SET LOCK_TIMEOUT 0", Other),
];

#[test]
fn statistics_io_is_a_setting(rt: HostRuntime) -> Result<(), Memory> {
    check(&rt, rt.alloc(), b"t", &SETTINGS)
}

static REORGANIZES: [(&[u8], Meant); 9] = [
    (b"ALTER INDEX ALL ON t REORGANIZE", Reorganize(false)),
    (
        b"ALTER INDEX ALL ON t REORGANIZE WITH (COMPRESS_ALL_ROW_GROUPS = ON)",
        Reorganize(true),
    ),
    (
        b"ALTER INDEX ALL ON t REORGANIZE WITH (COMPRESS_ALL_ROW_GROUPS = OFF)",
        Reorganize(false),
    ),
    (
        b"alter index cci on [T] reorganize with ( compress_all_row_groups = on ) ;",
        Reorganize(true),
    ),
    (
        b"ALTER INDEX [no such index] ON dbo.t REORGANIZE",
        Reorganize(false),
    ),
    (b"ALTER INDEX [ALL] ON sys.t REORGANIZE", Reorganize(false)),
    (b"ALTER INDEX ALL ON u REORGANIZE", Refused(208, 20)),
    (
        b"ALTER INDEX cci ON t.u REORGANIZE WITH (COMPRESS_ALL_ROW_GROUPS = ON)",
        Refused(208, 20),
    ),
    (b"ALTER INDEX ALL ON u REBUILD", Refused(50001, 22)),
];

#[test]
fn a_reorganize_closes_the_open_store_where_it_says_on(rt: HostRuntime) -> Result<(), Memory> {
    check(&rt, rt.alloc(), b"t", &REORGANIZES)
}
