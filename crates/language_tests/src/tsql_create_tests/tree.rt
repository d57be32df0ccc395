use crate::made::{Reader, check, check_refusals, print};
use std::alloc::Global;
use tsql_create::read_create;
use tsql_exprs::ReadRefusal;

/// Texts read as the trees of setup statements.
struct Trees;

impl Reader for Trees {
    fn read(alloc: Global, text: &[u8]) -> Result<String, ReadRefusal> {
        print(alloc, read_create(alloc, text)?)
    }
}

static SETUP_STATEMENTS: [(&[u8], &str); 9] = [
    (
        b"CREATE TABLE t (k int)",
        "CreateTree { table: TableTree { first: NameTree { place: 14, bytes: [116] }, second: None }, parts: [Column { name: NameTree { place: 17, bytes: [107] }, kind: Plain { place: 19, kind: Int }, marks: [] }] }",
    ),
    (
        b"create table dbo.[t] (k bigint not null primary key nonclustered, v INTEGER NULL);",
        "CreateTree { table: TableTree { first: NameTree { place: 14, bytes: [100, 98, 111] }, second: Some(NameTree { place: 18, bytes: [116] }) }, parts: [Column { name: NameTree { place: 23, bytes: [107] }, kind: Plain { place: 25, kind: BigInt }, marks: [NotNull { place: 32 }, Key { place: 41 }] }, Column { name: NameTree { place: 67, bytes: [118] }, kind: Plain { place: 69, kind: Int }, marks: [Null { place: 77 }] }] }",
    ),
    (
        b"CREATE TABLE t (a tinyint, b smallint, c date, d [int])",
        "CreateTree { table: TableTree { first: NameTree { place: 14, bytes: [116] }, second: None }, parts: [Column { name: NameTree { place: 17, bytes: [97] }, kind: Plain { place: 19, kind: TinyInt }, marks: [] }, Column { name: NameTree { place: 28, bytes: [98] }, kind: Plain { place: 30, kind: SmallInt }, marks: [] }, Column { name: NameTree { place: 40, bytes: [99] }, kind: Plain { place: 42, kind: Date }, marks: [] }, Column { name: NameTree { place: 48, bytes: [100] }, kind: Plain { place: 50, kind: Int }, marks: [] }] }",
    ),
    (
        b"CREATE TABLE t (a decimal, b decimal(9), c numeric(18, 4), d decimal(1.5))",
        "CreateTree { table: TableTree { first: NameTree { place: 14, bytes: [116] }, second: None }, parts: [Column { name: NameTree { place: 17, bytes: [97] }, kind: Decimal { place: 19, digits: None }, marks: [] }, Column { name: NameTree { place: 28, bytes: [98] }, kind: Decimal { place: 30, digits: Some((NumberTree { place: 38, minus: false, digits: 9, s: 0, point: false }, None)) }, marks: [] }, Column { name: NameTree { place: 42, bytes: [99] }, kind: Decimal { place: 44, digits: Some((NumberTree { place: 52, minus: false, digits: 18, s: 0, point: false }, Some(NumberTree { place: 56, minus: false, digits: 4, s: 0, point: false }))) }, marks: [] }, Column { name: NameTree { place: 60, bytes: [100] }, kind: Decimal { place: 62, digits: Some((NumberTree { place: 70, minus: false, digits: 15, s: 1, point: true }, None)) }, marks: [] }] }",
    ),
    (
        b"CREATE TABLE t (a varchar, b varchar(8), c VARCHAR(8.) PRIMARY KEY)",
        "CreateTree { table: TableTree { first: NameTree { place: 14, bytes: [116] }, second: None }, parts: [Column { name: NameTree { place: 17, bytes: [97] }, kind: VarChar { place: 19, size: None }, marks: [] }, Column { name: NameTree { place: 28, bytes: [98] }, kind: VarChar { place: 30, size: Some(NumberTree { place: 38, minus: false, digits: 8, s: 0, point: false }) }, marks: [] }, Column { name: NameTree { place: 42, bytes: [99] }, kind: VarChar { place: 44, size: Some(NumberTree { place: 52, minus: false, digits: 8, s: 0, point: true }) }, marks: [Key { place: 56 }] }] }",
    ),
    (
        b"CREATE TABLE t (PRIMARY KEY (k), k int)",
        "CreateTree { table: TableTree { first: NameTree { place: 14, bytes: [116] }, second: None }, parts: [Key { place: 17, name: NameTree { place: 30, bytes: [107] } }, Column { name: NameTree { place: 34, bytes: [107] }, kind: Plain { place: 36, kind: Int }, marks: [] }] }",
    ),
    (
        b"CREATE TABLE t (k int, CONSTRAINT c PRIMARY KEY NONCLUSTERED (k ASC), INDEX i CLUSTERED COLUMNSTORE)",
        "CreateTree { table: TableTree { first: NameTree { place: 14, bytes: [116] }, second: None }, parts: [Column { name: NameTree { place: 17, bytes: [107] }, kind: Plain { place: 19, kind: Int }, marks: [] }, Key { place: 37, name: NameTree { place: 63, bytes: [107] } }, Index { name: NameTree { place: 77, bytes: [105] } }] }",
    ),
    (
        b"CREATE TABLE t (k int NULL NULL NOT NULL PRIMARY KEY PRIMARY KEY)",
        "CreateTree { table: TableTree { first: NameTree { place: 14, bytes: [116] }, second: None }, parts: [Column { name: NameTree { place: 17, bytes: [107] }, kind: Plain { place: 19, kind: Int }, marks: [Null { place: 23 }, Null { place: 28 }, NotNull { place: 33 }, Key { place: 42 }, Key { place: 54 }] }] }",
    ),
    (
        b"CREATE TABLE t (INDEX i CLUSTERED COLUMNSTORE, INDEX [j k] CLUSTERED COLUMNSTORE, date date, varchar varchar)",
        "CreateTree { table: TableTree { first: NameTree { place: 14, bytes: [116] }, second: None }, parts: [Index { name: NameTree { place: 23, bytes: [105] } }, Index { name: NameTree { place: 54, bytes: [106, 32, 107] } }, Column { name: NameTree { place: 83, bytes: [100, 97, 116, 101] }, kind: Plain { place: 88, kind: Date }, marks: [] }, Column { name: NameTree { place: 94, bytes: [118, 97, 114, 99, 104, 97, 114] }, kind: VarChar { place: 102, size: None }, marks: [] }] }",
    ),
];

#[test]
fn setup_statements(rt: HostRuntime) -> Result<(), ReadRefusal> {
    check::<Trees>(&rt, rt.alloc(), &SETUP_STATEMENTS)
}

static REFUSALS: [(&[u8], u32, u32); 35] = [
    (b"", 102, 1),
    (b"CREATE", 102, 7),
    (b"CREATE t", 102, 8),
    (b"CREATE TABLE", 102, 13),
    (b"CREATE TABLE t", 102, 15),
    (b"CREATE TABLE t ()", 102, 17),
    (b"CREATE TABLE t (k)", 102, 18),
    (b"CREATE TABLE t (k float)", 102, 19),
    (b"CREATE TABLE t (k int", 102, 22),
    (b"CREATE TABLE t (k int,)", 102, 23),
    (b"CREATE TABLE t (k int NOT)", 102, 26),
    (b"CREATE TABLE t (k int PRIMARY)", 102, 30),
    (b"CREATE TABLE t (k int DEFAULT 1)", 50001, 23),
    (b"CREATE TABLE t (k int UNIQUE)", 50001, 23),
    (b"CREATE TABLE t (k int IDENTITY)", 50001, 23),
    (b"CREATE TABLE t (k int REFERENCES u)", 50001, 23),
    (b"CREATE TABLE t (k int(4))", 102, 22),
    (b"CREATE TABLE t (k decimal())", 102, 27),
    (b"CREATE TABLE t (k decimal(-1))", 102, 27),
    (b"CREATE TABLE t (k decimal(1,2,3))", 102, 30),
    (b"CREATE TABLE t (k varchar(max))", 102, 27),
    (b"CREATE TABLE t (PRIMARY KEY)", 102, 28),
    (b"CREATE TABLE t (PRIMARY KEY (k DESC))", 102, 32),
    (b"CREATE TABLE t (PRIMARY KEY (k, v))", 102, 31),
    (b"CREATE TABLE t (CONSTRAINT PRIMARY KEY (k))", 102, 28),
    (b"CREATE TABLE t (CONSTRAINT c UNIQUE (k))", 50001, 30),
    (
        b"CREATE TABLE t (INDEX i NONCLUSTERED COLUMNSTORE)",
        102,
        25,
    ),
    (b"CREATE TABLE t (INDEX i CLUSTERED (k))", 102, 35),
    (b"CREATE TABLE t (k int);;", 102, 24),
    (b"CREATE TABLE t (k int) x", 102, 24),
    (b"ALTER TABLE t", 102, 1),
    (b"SELECT * FROM t", 102, 1),
    (b"CREATE TABLE t (k int ?)", 102, 23),
    (b"CREATE TABLE t (select int)", 102, 17),
    (b"CREATE VIEW v", 50001, 8),
];

#[test]
fn refusals(rt: HostRuntime) {
    check_refusals::<Trees>(&rt, rt.alloc(), &REFUSALS);
}
