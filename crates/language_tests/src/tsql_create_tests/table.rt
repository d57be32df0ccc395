use crate::made::{Reader, check, check_refusals, check_refused, print};
use std::alloc::{AllocError, Global};
use tsql_create::read_table;
use tsql_exprs::ReadRefusal;

/// Texts read as the schemas of tables.
struct Tables;

impl Reader for Tables {
    fn read(alloc: Global, text: &[u8]) -> Result<String, ReadRefusal> {
        print(alloc, read_table(alloc, text)?)
    }
}

fn column(alloc: Global, number: usize) -> Result<String, AllocError> {
    format!(in alloc; ", c{number} int")
}

/// A table of a key and so many further columns.
fn wide(alloc: Global, count: usize) -> Result<Vec<u8>, AllocError> {
    let mut bytes = Vec::new(alloc);
    bytes.extend_from_slice(b"CREATE TABLE t (k int PRIMARY KEY")?;
    for number in 0..count {
        let next = column(alloc, number)?;
        bytes.extend_from_slice(next.as_bytes())?;
    }
    bytes.extend_from_slice(b")")?;
    Ok(bytes)
}

static SCHEMAS: [(&[u8], &str); 5] = [
    (
        b"CREATE TABLE t (k int PRIMARY KEY)",
        "Schema { name: [116], columns: [Column { name: [107], kind: Int, nullable: false }], key: 0 }",
    ),
    (
        b"create table dbo.[T] (a tinyint, b smallint null, c integer not null, [d] date primary key nonclustered, e bigint);",
        "Schema { name: [84], columns: [Column { name: [97], kind: TinyInt, nullable: true }, Column { name: [98], kind: SmallInt, nullable: true }, Column { name: [99], kind: Int, nullable: false }, Column { name: [100], kind: Date, nullable: false }, Column { name: [101], kind: BigInt, nullable: true }], key: 3 }",
    ),
    (
        b"CREATE TABLE t (PRIMARY KEY ([K] ASC), v varchar(8000) NOT NULL NOT NULL, k bigint, w varchar)",
        "Schema { name: [116], columns: [Column { name: [118], kind: VarChar { n: 8000 }, nullable: false }, Column { name: [107], kind: BigInt, nullable: false }, Column { name: [119], kind: VarChar { n: 1 }, nullable: true }], key: 1 }",
    ),
    (
        b"CREATE TABLE t (k tinyint, CONSTRAINT k PRIMARY KEY NONCLUSTERED (K), INDEX k CLUSTERED COLUMNSTORE)",
        "Schema { name: [116], columns: [Column { name: [107], kind: TinyInt, nullable: false }], key: 0 }",
    ),
    (
        b"CREATE TABLE t (k smallint PRIMARY KEY, a decimal, b decimal(1), c numeric(18,18), d numeric(18,0))",
        "Schema { name: [116], columns: [Column { name: [107], kind: SmallInt, nullable: false }, Column { name: [97], kind: Decimal { p: 18, s: 0 }, nullable: true }, Column { name: [98], kind: Decimal { p: 1, s: 0 }, nullable: true }, Column { name: [99], kind: Decimal { p: 18, s: 18 }, nullable: true }, Column { name: [100], kind: Decimal { p: 18, s: 0 }, nullable: true }], key: 0 }",
    ),
];

#[test]
fn schemas(rt: HostRuntime) -> Result<(), ReadRefusal> {
    check::<Tables>(&rt, rt.alloc(), &SCHEMAS)
}

static REFUSALS: [(&[u8], u32, u32); 34] = [
    (b"CREATE TABLE t (k int ?)", 102, 23),
    (b"CREATE TABLE t (k int, k int", 102, 29),
    (b"CREATE TABLE t (k int UNIQUE)", 50001, 23),
    (b"SELECT * FROM t", 102, 1),
    (
        b"CREATE TABLE t (k int PRIMARY KEY, d decimal(0))",
        50001,
        46,
    ),
    (
        b"CREATE TABLE t (k int PRIMARY KEY, d decimal(19))",
        50001,
        46,
    ),
    (
        b"CREATE TABLE t (k int PRIMARY KEY, d decimal(5,6))",
        50001,
        48,
    ),
    (
        b"CREATE TABLE t (k int PRIMARY KEY, d decimal(19,20))",
        50001,
        46,
    ),
    (
        b"CREATE TABLE t (k int PRIMARY KEY, d decimal(10.0))",
        50001,
        46,
    ),
    (
        b"CREATE TABLE t (k int PRIMARY KEY, d decimal(10,.1))",
        50001,
        49,
    ),
    (
        b"CREATE TABLE t (k int PRIMARY KEY, d varchar(0))",
        50001,
        46,
    ),
    (
        b"CREATE TABLE t (k int PRIMARY KEY, d varchar(8001))",
        50001,
        46,
    ),
    (
        b"CREATE TABLE t (k int PRIMARY KEY, d varchar(8.))",
        50001,
        46,
    ),
    (b"CREATE TABLE t (k int PRIMARY KEY, [K] int)", 50001, 36),
    (
        b"CREATE TABLE t (k int PRIMARY KEY, a int, b int, A int)",
        50001,
        50,
    ),
    (
        b"CREATE TABLE t (k int PRIMARY KEY, PRIMARY KEY (k))",
        50001,
        36,
    ),
    (b"CREATE TABLE t (k int PRIMARY KEY PRIMARY KEY)", 50001, 35),
    (
        b"CREATE TABLE t (k int PRIMARY KEY, v varchar(3) PRIMARY KEY NULL)",
        50001,
        49,
    ),
    (
        b"CREATE TABLE t (k int PRIMARY KEY, v int NOT NULL NULL)",
        50001,
        51,
    ),
    (
        b"CREATE TABLE t (k int PRIMARY KEY, v int NULL NOT NULL)",
        50001,
        47,
    ),
    (b"CREATE TABLE t (k int NULL PRIMARY KEY)", 50001, 28),
    (b"CREATE TABLE t (k int PRIMARY KEY NULL)", 50001, 35),
    (b"CREATE TABLE t (k int NULL, PRIMARY KEY (k))", 50001, 42),
    (b"CREATE TABLE t (PRIMARY KEY (k), k int NULL)", 50001, 40),
    (b"CREATE TABLE t (k varchar(9) PRIMARY KEY)", 50001, 30),
    (b"CREATE TABLE t (k decimal, PRIMARY KEY (K))", 50001, 41),
    (b"CREATE TABLE t (PRIMARY KEY (k), k varchar)", 50001, 36),
    (b"CREATE TABLE t (k int, PRIMARY KEY (v))", 50001, 37),
    (b"CREATE TABLE t (PRIMARY KEY (v))", 50001, 30),
    (b"CREATE TABLE t (k int)", 50001, 23),
    (b"CREATE TABLE t (k int);  ", 50001, 26),
    (b"CREATE TABLE t (INDEX i CLUSTERED COLUMNSTORE)", 50001, 47),
    (b"CREATE TABLE t (k int, k decimal(19))", 50001, 24),
    (b"CREATE TABLE t (d decimal(19), d int)", 50001, 27),
];

#[test]
fn refusals(rt: HostRuntime) {
    check_refusals::<Tables>(&rt, rt.alloc(), &REFUSALS);
}

#[test]
fn most_columns(rt: HostRuntime) -> Result<(), AllocError> {
    let most = wide(rt.alloc(), 31)?;
    assert!(rt; most.len() <= 131_072);
    assert!(rt; read_table(rt.alloc(), &most).is_ok());
    let over = wide(rt.alloc(), 32)?;
    check_refused::<Tables>(&rt, rt.alloc(), &over, 50001, 305);
    let far_over = wide(rt.alloc(), 5_000)?;
    check_refused::<Tables>(&rt, rt.alloc(), &far_over, 50001, 305);
    Ok(())
}
