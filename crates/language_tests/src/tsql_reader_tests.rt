use crate::made::{Reader, check, check_refusals, check_refused, print, repeated};
use cs_base::Memory;
use std::alloc::Global;
use std::process::Abort;
use tsql_exprs::ReadRefusal;
use tsql_reader::read_statement;

/// Texts read as statements.
struct Statements;

impl Reader for Statements {
    fn read(alloc: Global, text: &[u8]) -> Result<String, ReadRefusal> {
        print(alloc, read_statement(alloc, text)?)
    }
}

/// The text is read.
fn check_read(rt: &impl Abort, alloc: Global, text: &[u8]) {
    assert!(rt; text.len() <= 131_072);
    let read = read_statement(alloc, text);
    let is_read = read.is_ok();
    drop(read);
    assert!(rt; is_read);
}

static TRANSACTIONS_AND_SETTINGS: [(&[u8], &str); 15] = [
    (b"BEGIN TRAN", "Begin"),
    (b"begin Transaction", "Begin"),
    (b"COMMIT", "Commit"),
    (b"COMMIT TRAN", "Commit"),
    (b"COMMIT TRANSACTION;", "Commit"),
    (b"commit work", "Commit"),
    (b"ROLLBACK", "Rollback"),
    (b"ROLLBACK TRAN", "Rollback"),
    (b"ROLLBACK TRANSACTION", "Rollback"),
    (b"ROLLBACK [WORK];", "Rollback"),
    (b"SET TRANSACTION ISOLATION LEVEL SNAPSHOT", "SetSnapshot"),
    (b"SET STATISTICS IO ON", "SetStatistics { on: true }"),
    (b"set statistics io off", "SetStatistics { on: false }"),
    (
        b"SET LOCK_TIMEOUT 0",
        "SetLockTimeout { number: NumberTree { place: 18, minus: false, digits: 0, s: 0, point: false } }",
    ),
    (
        b"SET LOCK_TIMEOUT 0.0;",
        "SetLockTimeout { number: NumberTree { place: 18, minus: false, digits: 0, s: 1, point: true } }",
    ),
];

#[test]
fn transactions_and_settings(rt: HostRuntime) -> Result<(), ReadRefusal> {
    check::<Statements>(&rt, rt.alloc(), &TRANSACTIONS_AND_SETTINGS)
}

static INDEXES: [(&[u8], &str); 4] = [
    (
        b"ALTER INDEX ALL ON t REORGANIZE",
        "AlterIndex { index: None, table: TableTree { first: NameTree { place: 20, bytes: [116] }, second: None }, compress: None }",
    ),
    (
        b"ALTER INDEX c ON dbo.t REORGANIZE;",
        "AlterIndex { index: Some(NameTree { place: 13, bytes: [99] }), table: TableTree { first: NameTree { place: 18, bytes: [100, 98, 111] }, second: Some(NameTree { place: 22, bytes: [116] }) }, compress: None }",
    ),
    (
        b"ALTER INDEX c ON t REORGANIZE WITH (COMPRESS_ALL_ROW_GROUPS = ON)",
        "AlterIndex { index: Some(NameTree { place: 13, bytes: [99] }), table: TableTree { first: NameTree { place: 18, bytes: [116] }, second: None }, compress: Some(true) }",
    ),
    (
        b"ALTER INDEX [all] ON t REORGANIZE WITH(compress_all_row_groups=OFF);",
        "AlterIndex { index: Some(NameTree { place: 13, bytes: [97, 108, 108] }), table: TableTree { first: NameTree { place: 22, bytes: [116] }, second: None }, compress: Some(false) }",
    ),
];

#[test]
fn indexes(rt: HostRuntime) -> Result<(), ReadRefusal> {
    check::<Statements>(&rt, rt.alloc(), &INDEXES)
}

static INSERTS: [(&[u8], &str); 5] = [
    (
        b"INSERT t VALUES (1)",
        "Insert { table: TableTree { first: NameTree { place: 8, bytes: [116] }, second: None }, names: None, source: Values([RowTree { place: 17, exprs: [ExprTree { first: TermTree { first: FactorTree { sign: None, primary: Number(NumberTree { place: 18, minus: false, digits: 1, s: 0, point: false }) }, rest: [] }, rest: [] }] }]) }",
    ),
    (
        b"INSERT INTO t VALUES (1,NULL),(-2.50,'a''b');",
        "Insert { table: TableTree { first: NameTree { place: 13, bytes: [116] }, second: None }, names: None, source: Values([RowTree { place: 22, exprs: [ExprTree { first: TermTree { first: FactorTree { sign: None, primary: Number(NumberTree { place: 23, minus: false, digits: 1, s: 0, point: false }) }, rest: [] }, rest: [] }, ExprTree { first: TermTree { first: FactorTree { sign: None, primary: Null { place: 25 } }, rest: [] }, rest: [] }] }, RowTree { place: 31, exprs: [ExprTree { first: TermTree { first: FactorTree { sign: None, primary: Number(NumberTree { place: 32, minus: true, digits: 250, s: 2, point: true }) }, rest: [] }, rest: [] }, ExprTree { first: TermTree { first: FactorTree { sign: None, primary: Text(TextTree { place: 38, bytes: [97, 39, 98] }) }, rest: [] }, rest: [] }] }]) }",
    ),
    (
        b"INSERT INTO [a].[b c](k,[V]) VALUES (+3, - v)",
        "Insert { table: TableTree { first: NameTree { place: 13, bytes: [97] }, second: Some(NameTree { place: 17, bytes: [98, 32, 99] }) }, names: Some([NameTree { place: 23, bytes: [107] }, NameTree { place: 25, bytes: [86] }]), source: Values([RowTree { place: 37, exprs: [ExprTree { first: TermTree { first: FactorTree { sign: None, primary: Number(NumberTree { place: 38, minus: false, digits: 3, s: 0, point: false }) }, rest: [] }, rest: [] }, ExprTree { first: TermTree { first: FactorTree { sign: Some(SignTree { place: 42, minus: true }), primary: Name(NameTree { place: 44, bytes: [118] }) }, rest: [] }, rest: [] }] }]) }",
    ),
    (
        b"INSERT t SELECT value FROM GENERATE_SERIES(1,2)",
        "Insert { table: TableTree { first: NameTree { place: 8, bytes: [116] }, second: None }, names: None, source: Series(SeriesTree { exprs: [ExprTree { first: TermTree { first: FactorTree { sign: None, primary: Name(NameTree { place: 17, bytes: [118, 97, 108, 117, 101] }) }, rest: [] }, rest: [] }], place: 28, start: NumberTree { place: 44, minus: false, digits: 1, s: 0, point: false }, stop: NumberTree { place: 46, minus: false, digits: 2, s: 0, point: false } }) }",
    ),
    (
        b"INSERT INTO t(k) SELECT value, value+1 FROM GENERATE_SERIES(-1, +20.)",
        "Insert { table: TableTree { first: NameTree { place: 13, bytes: [116] }, second: None }, names: Some([NameTree { place: 15, bytes: [107] }]), source: Series(SeriesTree { exprs: [ExprTree { first: TermTree { first: FactorTree { sign: None, primary: Name(NameTree { place: 25, bytes: [118, 97, 108, 117, 101] }) }, rest: [] }, rest: [] }, ExprTree { first: TermTree { first: FactorTree { sign: None, primary: Name(NameTree { place: 32, bytes: [118, 97, 108, 117, 101] }) }, rest: [] }, rest: [(SignTree { place: 37, minus: false }, TermTree { first: FactorTree { sign: None, primary: Number(NumberTree { place: 38, minus: false, digits: 1, s: 0, point: false }) }, rest: [] })] }], place: 45, start: NumberTree { place: 61, minus: true, digits: 1, s: 0, point: false }, stop: NumberTree { place: 65, minus: false, digits: 20, s: 0, point: true } }) }",
    ),
];

#[test]
fn inserts(rt: HostRuntime) -> Result<(), ReadRefusal> {
    check::<Statements>(&rt, rt.alloc(), &INSERTS)
}

static EXPRESSIONS: [(&[u8], &str); 8] = [
    (
        b"INSERT t VALUES (1+2-3)",
        "Insert { table: TableTree { first: NameTree { place: 8, bytes: [116] }, second: None }, names: None, source: Values([RowTree { place: 17, exprs: [ExprTree { first: TermTree { first: FactorTree { sign: None, primary: Number(NumberTree { place: 18, minus: false, digits: 1, s: 0, point: false }) }, rest: [] }, rest: [(SignTree { place: 19, minus: false }, TermTree { first: FactorTree { sign: None, primary: Number(NumberTree { place: 20, minus: false, digits: 2, s: 0, point: false }) }, rest: [] }), (SignTree { place: 21, minus: true }, TermTree { first: FactorTree { sign: None, primary: Number(NumberTree { place: 22, minus: false, digits: 3, s: 0, point: false }) }, rest: [] })] }] }]) }",
    ),
    (
        b"INSERT t VALUES (a*b/c%d)",
        "Insert { table: TableTree { first: NameTree { place: 8, bytes: [116] }, second: None }, names: None, source: Values([RowTree { place: 17, exprs: [ExprTree { first: TermTree { first: FactorTree { sign: None, primary: Name(NameTree { place: 18, bytes: [97] }) }, rest: [(TimesTree { place: 19, sign: Star }, FactorTree { sign: None, primary: Name(NameTree { place: 20, bytes: [98] }) }), (TimesTree { place: 21, sign: Slash }, FactorTree { sign: None, primary: Name(NameTree { place: 22, bytes: [99] }) }), (TimesTree { place: 23, sign: Percent }, FactorTree { sign: None, primary: Name(NameTree { place: 24, bytes: [100] }) })] }, rest: [] }] }]) }",
    ),
    (
        b"INSERT t VALUES (1+2*3)",
        "Insert { table: TableTree { first: NameTree { place: 8, bytes: [116] }, second: None }, names: None, source: Values([RowTree { place: 17, exprs: [ExprTree { first: TermTree { first: FactorTree { sign: None, primary: Number(NumberTree { place: 18, minus: false, digits: 1, s: 0, point: false }) }, rest: [] }, rest: [(SignTree { place: 19, minus: false }, TermTree { first: FactorTree { sign: None, primary: Number(NumberTree { place: 20, minus: false, digits: 2, s: 0, point: false }) }, rest: [(TimesTree { place: 21, sign: Star }, FactorTree { sign: None, primary: Number(NumberTree { place: 22, minus: false, digits: 3, s: 0, point: false }) })] })] }] }]) }",
    ),
    (
        b"INSERT t VALUES ((1+2)*-(3))",
        "Insert { table: TableTree { first: NameTree { place: 8, bytes: [116] }, second: None }, names: None, source: Values([RowTree { place: 17, exprs: [ExprTree { first: TermTree { first: FactorTree { sign: None, primary: Nested { place: 18, expr: Boxed { inner: ExprTree { first: TermTree { first: FactorTree { sign: None, primary: Number(NumberTree { place: 19, minus: false, digits: 1, s: 0, point: false }) }, rest: [] }, rest: [(SignTree { place: 20, minus: false }, TermTree { first: FactorTree { sign: None, primary: Number(NumberTree { place: 21, minus: false, digits: 2, s: 0, point: false }) }, rest: [] })] } } } }, rest: [(TimesTree { place: 23, sign: Star }, FactorTree { sign: Some(SignTree { place: 24, minus: true }), primary: Nested { place: 25, expr: Boxed { inner: ExprTree { first: TermTree { first: FactorTree { sign: None, primary: Number(NumberTree { place: 26, minus: false, digits: 3, s: 0, point: false }) }, rest: [] }, rest: [] } } } })] }, rest: [] }] }]) }",
    ),
    (
        b"INSERT t VALUES (-NULL,+'x',-a,- 5)",
        "Insert { table: TableTree { first: NameTree { place: 8, bytes: [116] }, second: None }, names: None, source: Values([RowTree { place: 17, exprs: [ExprTree { first: TermTree { first: FactorTree { sign: Some(SignTree { place: 18, minus: true }), primary: Null { place: 19 } }, rest: [] }, rest: [] }, ExprTree { first: TermTree { first: FactorTree { sign: Some(SignTree { place: 24, minus: false }), primary: Text(TextTree { place: 25, bytes: [120] }) }, rest: [] }, rest: [] }, ExprTree { first: TermTree { first: FactorTree { sign: Some(SignTree { place: 29, minus: true }), primary: Name(NameTree { place: 30, bytes: [97] }) }, rest: [] }, rest: [] }, ExprTree { first: TermTree { first: FactorTree { sign: None, primary: Number(NumberTree { place: 32, minus: true, digits: 5, s: 0, point: false }) }, rest: [] }, rest: [] }] }]) }",
    ),
    (
        b"INSERT t VALUES (1 - -2)",
        "Insert { table: TableTree { first: NameTree { place: 8, bytes: [116] }, second: None }, names: None, source: Values([RowTree { place: 17, exprs: [ExprTree { first: TermTree { first: FactorTree { sign: None, primary: Number(NumberTree { place: 18, minus: false, digits: 1, s: 0, point: false }) }, rest: [] }, rest: [(SignTree { place: 20, minus: true }, TermTree { first: FactorTree { sign: None, primary: Number(NumberTree { place: 22, minus: true, digits: 2, s: 0, point: false }) }, rest: [] })] }] }]) }",
    ),
    (
        b"UPDATE t SET v=v+1,w='x'",
        "Update { table: TableTree { first: NameTree { place: 8, bytes: [116] }, second: None }, sets: [SetTree { name: NameTree { place: 14, bytes: [118] }, expr: ExprTree { first: TermTree { first: FactorTree { sign: None, primary: Name(NameTree { place: 16, bytes: [118] }) }, rest: [] }, rest: [(SignTree { place: 17, minus: false }, TermTree { first: FactorTree { sign: None, primary: Number(NumberTree { place: 18, minus: false, digits: 1, s: 0, point: false }) }, rest: [] })] } }, SetTree { name: NameTree { place: 20, bytes: [119] }, expr: ExprTree { first: TermTree { first: FactorTree { sign: None, primary: Text(TextTree { place: 22, bytes: [120] }) }, rest: [] }, rest: [] } }], filter: None }",
    ),
    (
        b"UPDATE dbo.t SET v=((v)) WHERE k=1;",
        "Update { table: TableTree { first: NameTree { place: 8, bytes: [100, 98, 111] }, second: Some(NameTree { place: 12, bytes: [116] }) }, sets: [SetTree { name: NameTree { place: 18, bytes: [118] }, expr: ExprTree { first: TermTree { first: FactorTree { sign: None, primary: Nested { place: 20, expr: Boxed { inner: ExprTree { first: TermTree { first: FactorTree { sign: None, primary: Nested { place: 21, expr: Boxed { inner: ExprTree { first: TermTree { first: FactorTree { sign: None, primary: Name(NameTree { place: 22, bytes: [118] }) }, rest: [] }, rest: [] } } } }, rest: [] }, rest: [] } } } }, rest: [] }, rest: [] } }], filter: Some(PredTree { first: ConjTree { first: NegTree { negated: false, part: Atom(Compare { left: Name(NameTree { place: 32, bytes: [107] }), cmp: Equal, right: Const(Number(NumberTree { place: 34, minus: false, digits: 1, s: 0, point: false })) }) }, rest: [] }, rest: [] }) }",
    ),
];

#[test]
fn expressions(rt: HostRuntime) -> Result<(), ReadRefusal> {
    check::<Statements>(&rt, rt.alloc(), &EXPRESSIONS)
}

static DELETES: [(&[u8], &str); 4] = [
    (
        b"DELETE t",
        "Delete { table: TableTree { first: NameTree { place: 8, bytes: [116] }, second: None }, filter: None }",
    ),
    (
        b"DELETE FROM t;",
        "Delete { table: TableTree { first: NameTree { place: 13, bytes: [116] }, second: None }, filter: None }",
    ),
    (
        b"DELETE FROM t WHERE k=1",
        "Delete { table: TableTree { first: NameTree { place: 13, bytes: [116] }, second: None }, filter: Some(PredTree { first: ConjTree { first: NegTree { negated: false, part: Atom(Compare { left: Name(NameTree { place: 21, bytes: [107] }), cmp: Equal, right: Const(Number(NumberTree { place: 23, minus: false, digits: 1, s: 0, point: false })) }) }, rest: [] }, rest: [] }) }",
    ),
    (
        b"DELETE dbo.t WHERE v IS NULL",
        "Delete { table: TableTree { first: NameTree { place: 8, bytes: [100, 98, 111] }, second: Some(NameTree { place: 12, bytes: [116] }) }, filter: Some(PredTree { first: ConjTree { first: NegTree { negated: false, part: Atom(IsNull { name: NameTree { place: 20, bytes: [118] }, negated: false }) }, rest: [] }, rest: [] }) }",
    ),
];

#[test]
fn deletes(rt: HostRuntime) -> Result<(), ReadRefusal> {
    check::<Statements>(&rt, rt.alloc(), &DELETES)
}

static PREDICATES: [(&[u8], &str); 17] = [
    (
        b"DELETE t WHERE a=1 OR b=2 AND c=3",
        "Delete { table: TableTree { first: NameTree { place: 8, bytes: [116] }, second: None }, filter: Some(PredTree { first: ConjTree { first: NegTree { negated: false, part: Atom(Compare { left: Name(NameTree { place: 16, bytes: [97] }), cmp: Equal, right: Const(Number(NumberTree { place: 18, minus: false, digits: 1, s: 0, point: false })) }) }, rest: [] }, rest: [ConjTree { first: NegTree { negated: false, part: Atom(Compare { left: Name(NameTree { place: 23, bytes: [98] }), cmp: Equal, right: Const(Number(NumberTree { place: 25, minus: false, digits: 2, s: 0, point: false })) }) }, rest: [NegTree { negated: false, part: Atom(Compare { left: Name(NameTree { place: 31, bytes: [99] }), cmp: Equal, right: Const(Number(NumberTree { place: 33, minus: false, digits: 3, s: 0, point: false })) }) }] }] }) }",
    ),
    (
        b"DELETE t WHERE a=1 AND b=2 OR c=3",
        "Delete { table: TableTree { first: NameTree { place: 8, bytes: [116] }, second: None }, filter: Some(PredTree { first: ConjTree { first: NegTree { negated: false, part: Atom(Compare { left: Name(NameTree { place: 16, bytes: [97] }), cmp: Equal, right: Const(Number(NumberTree { place: 18, minus: false, digits: 1, s: 0, point: false })) }) }, rest: [NegTree { negated: false, part: Atom(Compare { left: Name(NameTree { place: 24, bytes: [98] }), cmp: Equal, right: Const(Number(NumberTree { place: 26, minus: false, digits: 2, s: 0, point: false })) }) }] }, rest: [ConjTree { first: NegTree { negated: false, part: Atom(Compare { left: Name(NameTree { place: 31, bytes: [99] }), cmp: Equal, right: Const(Number(NumberTree { place: 33, minus: false, digits: 3, s: 0, point: false })) }) }, rest: [] }] }) }",
    ),
    (
        b"DELETE t WHERE NOT a<>1",
        "Delete { table: TableTree { first: NameTree { place: 8, bytes: [116] }, second: None }, filter: Some(PredTree { first: ConjTree { first: NegTree { negated: true, part: Atom(Compare { left: Name(NameTree { place: 20, bytes: [97] }), cmp: NotEqual, right: Const(Number(NumberTree { place: 23, minus: false, digits: 1, s: 0, point: false })) }) }, rest: [] }, rest: [] }) }",
    ),
    (
        b"DELETE t WHERE NOT NOT a!=1",
        "Delete { table: TableTree { first: NameTree { place: 8, bytes: [116] }, second: None }, filter: Some(PredTree { first: ConjTree { first: NegTree { negated: false, part: Atom(Compare { left: Name(NameTree { place: 24, bytes: [97] }), cmp: BangEqual, right: Const(Number(NumberTree { place: 27, minus: false, digits: 1, s: 0, point: false })) }) }, rest: [] }, rest: [] }) }",
    ),
    (
        b"DELETE t WHERE NOT NOT NOT a<1",
        "Delete { table: TableTree { first: NameTree { place: 8, bytes: [116] }, second: None }, filter: Some(PredTree { first: ConjTree { first: NegTree { negated: true, part: Atom(Compare { left: Name(NameTree { place: 28, bytes: [97] }), cmp: Less, right: Const(Number(NumberTree { place: 30, minus: false, digits: 1, s: 0, point: false })) }) }, rest: [] }, rest: [] }) }",
    ),
    (
        b"DELETE t WHERE (a<=1 OR b>2) AND NOT (c>=3)",
        "Delete { table: TableTree { first: NameTree { place: 8, bytes: [116] }, second: None }, filter: Some(PredTree { first: ConjTree { first: NegTree { negated: false, part: Nested { place: 16, pred: Boxed { inner: PredTree { first: ConjTree { first: NegTree { negated: false, part: Atom(Compare { left: Name(NameTree { place: 17, bytes: [97] }), cmp: LessEqual, right: Const(Number(NumberTree { place: 20, minus: false, digits: 1, s: 0, point: false })) }) }, rest: [] }, rest: [ConjTree { first: NegTree { negated: false, part: Atom(Compare { left: Name(NameTree { place: 25, bytes: [98] }), cmp: Greater, right: Const(Number(NumberTree { place: 27, minus: false, digits: 2, s: 0, point: false })) }) }, rest: [] }] } } } }, rest: [NegTree { negated: true, part: Nested { place: 38, pred: Boxed { inner: PredTree { first: ConjTree { first: NegTree { negated: false, part: Atom(Compare { left: Name(NameTree { place: 39, bytes: [99] }), cmp: GreaterEqual, right: Const(Number(NumberTree { place: 42, minus: false, digits: 3, s: 0, point: false })) }) }, rest: [] }, rest: [] } } } }] }, rest: [] }) }",
    ),
    (
        b"DELETE t WHERE 1=a",
        "Delete { table: TableTree { first: NameTree { place: 8, bytes: [116] }, second: None }, filter: Some(PredTree { first: ConjTree { first: NegTree { negated: false, part: Atom(Compare { left: Const(Number(NumberTree { place: 16, minus: false, digits: 1, s: 0, point: false })), cmp: Equal, right: Name(NameTree { place: 18, bytes: [97] }) }) }, rest: [] }, rest: [] }) }",
    ),
    (
        b"DELETE t WHERE NULL='x'",
        "Delete { table: TableTree { first: NameTree { place: 8, bytes: [116] }, second: None }, filter: Some(PredTree { first: ConjTree { first: NegTree { negated: false, part: Atom(Compare { left: Const(Null { place: 16 }), cmp: Equal, right: Const(Text(TextTree { place: 21, bytes: [120] })) }) }, rest: [] }, rest: [] }) }",
    ),
    (
        b"DELETE t WHERE -1<+2.5",
        "Delete { table: TableTree { first: NameTree { place: 8, bytes: [116] }, second: None }, filter: Some(PredTree { first: ConjTree { first: NegTree { negated: false, part: Atom(Compare { left: Const(Number(NumberTree { place: 16, minus: true, digits: 1, s: 0, point: false })), cmp: Less, right: Const(Number(NumberTree { place: 19, minus: false, digits: 25, s: 1, point: true })) }) }, rest: [] }, rest: [] }) }",
    ),
    (
        b"DELETE t WHERE a BETWEEN 1 AND -2 AND b=1",
        "Delete { table: TableTree { first: NameTree { place: 8, bytes: [116] }, second: None }, filter: Some(PredTree { first: ConjTree { first: NegTree { negated: false, part: Atom(Between { name: NameTree { place: 16, bytes: [97] }, negated: false, low: Number(NumberTree { place: 26, minus: false, digits: 1, s: 0, point: false }), high: Number(NumberTree { place: 32, minus: true, digits: 2, s: 0, point: false }) }) }, rest: [NegTree { negated: false, part: Atom(Compare { left: Name(NameTree { place: 39, bytes: [98] }), cmp: Equal, right: Const(Number(NumberTree { place: 41, minus: false, digits: 1, s: 0, point: false })) }) }] }, rest: [] }) }",
    ),
    (
        b"DELETE t WHERE a NOT BETWEEN 'a' AND NULL",
        "Delete { table: TableTree { first: NameTree { place: 8, bytes: [116] }, second: None }, filter: Some(PredTree { first: ConjTree { first: NegTree { negated: false, part: Atom(Between { name: NameTree { place: 16, bytes: [97] }, negated: true, low: Text(TextTree { place: 30, bytes: [97] }), high: Null { place: 38 } }) }, rest: [] }, rest: [] }) }",
    ),
    (
        b"DELETE t WHERE a IN (1)",
        "Delete { table: TableTree { first: NameTree { place: 8, bytes: [116] }, second: None }, filter: Some(PredTree { first: ConjTree { first: NegTree { negated: false, part: Atom(In { name: NameTree { place: 16, bytes: [97] }, negated: false, list: [Number(NumberTree { place: 22, minus: false, digits: 1, s: 0, point: false })] }) }, rest: [] }, rest: [] }) }",
    ),
    (
        b"DELETE t WHERE a NOT IN (1,'b',NULL)",
        "Delete { table: TableTree { first: NameTree { place: 8, bytes: [116] }, second: None }, filter: Some(PredTree { first: ConjTree { first: NegTree { negated: false, part: Atom(In { name: NameTree { place: 16, bytes: [97] }, negated: true, list: [Number(NumberTree { place: 26, minus: false, digits: 1, s: 0, point: false }), Text(TextTree { place: 28, bytes: [98] }), Null { place: 32 }] }) }, rest: [] }, rest: [] }) }",
    ),
    (
        b"DELETE t WHERE a LIKE 'x%'",
        "Delete { table: TableTree { first: NameTree { place: 8, bytes: [116] }, second: None }, filter: Some(PredTree { first: ConjTree { first: NegTree { negated: false, part: Atom(Like { name: NameTree { place: 16, bytes: [97] }, negated: false, pattern: TextTree { place: 23, bytes: [120, 37] } }) }, rest: [] }, rest: [] }) }",
    ),
    (
        b"DELETE t WHERE a NOT LIKE '_'",
        "Delete { table: TableTree { first: NameTree { place: 8, bytes: [116] }, second: None }, filter: Some(PredTree { first: ConjTree { first: NegTree { negated: false, part: Atom(Like { name: NameTree { place: 16, bytes: [97] }, negated: true, pattern: TextTree { place: 27, bytes: [95] } }) }, rest: [] }, rest: [] }) }",
    ),
    (
        b"DELETE t WHERE a IS NOT NULL",
        "Delete { table: TableTree { first: NameTree { place: 8, bytes: [116] }, second: None }, filter: Some(PredTree { first: ConjTree { first: NegTree { negated: false, part: Atom(IsNull { name: NameTree { place: 16, bytes: [97] }, negated: true }) }, rest: [] }, rest: [] }) }",
    ),
    (
        b"DELETE t WHERE ((a=b))",
        "Delete { table: TableTree { first: NameTree { place: 8, bytes: [116] }, second: None }, filter: Some(PredTree { first: ConjTree { first: NegTree { negated: false, part: Nested { place: 16, pred: Boxed { inner: PredTree { first: ConjTree { first: NegTree { negated: false, part: Nested { place: 17, pred: Boxed { inner: PredTree { first: ConjTree { first: NegTree { negated: false, part: Atom(Compare { left: Name(NameTree { place: 18, bytes: [97] }), cmp: Equal, right: Name(NameTree { place: 20, bytes: [98] }) }) }, rest: [] }, rest: [] } } } }, rest: [] }, rest: [] } } } }, rest: [] }, rest: [] }) }",
    ),
];

#[test]
fn predicates(rt: HostRuntime) -> Result<(), ReadRefusal> {
    check::<Statements>(&rt, rt.alloc(), &PREDICATES)
}

static SELECTS: [(&[u8], &str); 8] = [
    (
        b"SELECT * FROM t",
        "Select { items: All { place: 8 }, table: TableTree { first: NameTree { place: 15, bytes: [116] }, second: None }, filter: None, groups: None, order: None }",
    ),
    (
        b"SELECT k, [v] FROM dbo.t;",
        "Select { items: List([Name(NameTree { place: 8, bytes: [107] }), Name(NameTree { place: 11, bytes: [118] })]), table: TableTree { first: NameTree { place: 20, bytes: [100, 98, 111] }, second: Some(NameTree { place: 24, bytes: [116] }) }, filter: None, groups: None, order: None }",
    ),
    (
        b"SELECT COUNT(*), COUNT(v), SUM(v), MIN(v), MAX(v), AVG(v) FROM t",
        "Select { items: List([CountAll { place: 8 }, Aggregate { place: 18, aggregate: Count, name: NameTree { place: 24, bytes: [118] } }, Aggregate { place: 28, aggregate: Sum, name: NameTree { place: 32, bytes: [118] } }, Aggregate { place: 36, aggregate: Min, name: NameTree { place: 40, bytes: [118] } }, Aggregate { place: 44, aggregate: Max, name: NameTree { place: 48, bytes: [118] } }, Aggregate { place: 52, aggregate: Avg, name: NameTree { place: 56, bytes: [118] } }]), table: TableTree { first: NameTree { place: 64, bytes: [116] }, second: None }, filter: None, groups: None, order: None }",
    ),
    (
        b"SELECT count, sum, [Min] FROM t",
        "Select { items: List([Name(NameTree { place: 8, bytes: [99, 111, 117, 110, 116] }), Name(NameTree { place: 15, bytes: [115, 117, 109] }), Name(NameTree { place: 20, bytes: [77, 105, 110] })]), table: TableTree { first: NameTree { place: 31, bytes: [116] }, second: None }, filter: None, groups: None, order: None }",
    ),
    (
        b"SELECT k FROM t WHERE k=1 GROUP BY k, v ORDER BY k ASC, v DESC, w",
        "Select { items: List([Name(NameTree { place: 8, bytes: [107] })]), table: TableTree { first: NameTree { place: 15, bytes: [116] }, second: None }, filter: Some(PredTree { first: ConjTree { first: NegTree { negated: false, part: Atom(Compare { left: Name(NameTree { place: 23, bytes: [107] }), cmp: Equal, right: Const(Number(NumberTree { place: 25, minus: false, digits: 1, s: 0, point: false })) }) }, rest: [] }, rest: [] }), groups: Some([NameTree { place: 36, bytes: [107] }, NameTree { place: 39, bytes: [118] }]), order: Some([OitemTree { name: NameTree { place: 50, bytes: [107] }, descending: false }, OitemTree { name: NameTree { place: 57, bytes: [118] }, descending: true }, OitemTree { name: NameTree { place: 65, bytes: [119] }, descending: false }]) }",
    ),
    (
        b"SELECT k FROM t GROUP BY k",
        "Select { items: List([Name(NameTree { place: 8, bytes: [107] })]), table: TableTree { first: NameTree { place: 15, bytes: [116] }, second: None }, filter: None, groups: Some([NameTree { place: 26, bytes: [107] }]), order: None }",
    ),
    (
        b"SELECT k FROM t ORDER BY k",
        "Select { items: List([Name(NameTree { place: 8, bytes: [107] })]), table: TableTree { first: NameTree { place: 15, bytes: [116] }, second: None }, filter: None, groups: None, order: Some([OitemTree { name: NameTree { place: 26, bytes: [107] }, descending: false }]) }",
    ),
    (
        b"SELECT work, date, level FROM sys.snapshot ORDER BY io",
        "Select { items: List([Name(NameTree { place: 8, bytes: [119, 111, 114, 107] }), Name(NameTree { place: 14, bytes: [100, 97, 116, 101] }), Name(NameTree { place: 20, bytes: [108, 101, 118, 101, 108] })]), table: TableTree { first: NameTree { place: 31, bytes: [115, 121, 115] }, second: Some(NameTree { place: 35, bytes: [115, 110, 97, 112, 115, 104, 111, 116] }) }, filter: None, groups: None, order: Some([OitemTree { name: NameTree { place: 53, bytes: [105, 111] }, descending: false }]) }",
    ),
];

#[test]
fn selects(rt: HostRuntime) -> Result<(), ReadRefusal> {
    check::<Statements>(&rt, rt.alloc(), &SELECTS)
}

static REFUSALS: [(&[u8], u32, u32); 72] = [
    (b"", 102, 1),
    (b"-- only", 102, 8),
    (b"INSERT INTO t VAL", 102, 15),
    (b"SELECT", 102, 7),
    (b"SELECT FROM t", 102, 8),
    (b"SELECT * t", 102, 10),
    (b"SELECT * FROM", 102, 14),
    (b"SELECT * FROM t WHERE", 102, 22),
    (b"SELECT * FROM t WHERE a", 102, 24),
    (b"SELECT * FROM t WHERE a=", 102, 25),
    (b"SELECT * FROM t WHERE a NOT NULL", 102, 29),
    (b"SELECT * FROM t WHERE a IS 1", 102, 28),
    (b"SELECT * FROM t WHERE NOT", 102, 26),
    (b"SELECT * FROM t WHERE (a=1", 102, 27),
    (b"SELECT * FROM t WHERE a=1)", 102, 26),
    (b"SELECT * FROM t WHERE (1)=a", 102, 25),
    (b"SELECT * FROM t WHERE a+1=2", 102, 24),
    (b"SELECT * FROM t GROUP k", 102, 23),
    (b"SELECT * FROM t ORDER BY k,", 102, 28),
    (b"SELECT * FROM t ORDER BY k WHERE k=1", 102, 28),
    (b"SELECT * FROM t;;", 102, 17),
    (b"SELECT f(k) FROM t", 102, 9),
    (b"SELECT SUM(*) FROM t", 102, 12),
    (b"SELECT COUNT() FROM t", 102, 14),
    (b"SELECT DISTINCT k FROM t", 50001, 8),
    (b"SELECT TOP 1 k FROM t", 50001, 8),
    (b"SELECT k FROM t JOIN u", 50001, 17),
    (b"SELECT k FROM t WHERE EXISTS", 50001, 23),
    (b"SELECT k FROM t HAVING", 50001, 17),
    (b"ALTER TABLE t", 50001, 7),
    (b"ALTER INDEX TABLE", 102, 13),
    (b"ALTER x", 102, 7),
    (b"CREATE TABLE t (k int)", 102, 1),
    (b"TABLE t", 102, 1),
    (b"BEGIN", 102, 6),
    (b"BEGIN WORK", 102, 7),
    (b"COMMIT 1", 102, 8),
    (b"SET x", 102, 5),
    (b"SET STATISTICS TIME ON", 102, 16),
    (b"SET TRANSACTION ISOLATION LEVEL READ COMMITTED", 50001, 33),
    (b"SET TRANSACTION ISOLATION LEVEL SERIALIZABLE", 50001, 33),
    (b"SET LOCK_TIMEOUT -1", 102, 18),
    (b"SET LOCK_TIMEOUT 1a", 102, 19),
    (b"INSERT t VALUES", 102, 16),
    (b"INSERT t VALUES ()", 102, 18),
    (b"INSERT t VALUES (1,)", 102, 20),
    (b"INSERT t VALUES (1),", 102, 21),
    (b"INSERT t (k) (1)", 102, 14),
    (b"INSERT t () VALUES (1)", 102, 11),
    (b"INSERT t DEFAULT VALUES", 50001, 10),
    (b"INSERT t SELECT 1 FROM u", 102, 24),
    (b"INSERT t SELECT 1 FROM GENERATE_SERIES(a,1)", 102, 40),
    (b"INSERT t VALUES (1 2)", 102, 20),
    (b"INSERT t VALUES (- -2)", 102, 20),
    (b"INSERT t VALUES (1*)", 102, 20),
    (b"INSERT [VALUES] (1)", 102, 18),
    (b"UPDATE t SET v=1,", 102, 18),
    (b"UPDATE t SET v+1", 102, 15),
    (b"UPDATE t k=1", 102, 10),
    (b"DELETE FROM WHERE", 102, 13),
    (b"DELETE t WHERE a IN ()", 102, 22),
    (b"DELETE t WHERE a IN (b)", 102, 22),
    (b"DELETE t WHERE a BETWEEN 1 OR 2", 102, 28),
    (b"DELETE t WHERE a LIKE b", 102, 23),
    (b"ALTER INDEX ALL ON t REBUILD", 50001, 22),
    (b"ALTER INDEX ALL ON t REORGANIZE WITH (x=ON)", 102, 39),
    (
        b"ALTER INDEX ALL ON t REORGANIZE WITH (COMPRESS_ALL_ROW_GROUPS=1)",
        102,
        63,
    ),
    (b"SELECT * FROM t WHERE a = ?", 102, 27),
    (b"SELECT * FROM t WHERE a = '\t'", 50001, 27),
    (b"x", 102, 1),
    (b"SELECT a.b FROM t", 102, 9),
    (b"COMMIT [TRAN]", 102, 8),
];

#[test]
fn refusals(rt: HostRuntime) {
    check_refusals::<Statements>(&rt, rt.alloc(), &REFUSALS);
}

static WITHIN_THE_LIMITS: [(&[u8], &[u8], usize, &[u8]); 7] = [
    (b"INSERT t VALUES (1)", b",(1)", 999, b""),
    (b"SELECT a", b",a", 63, b" FROM t"),
    (b"DELETE t WHERE a IN (1", b",1", 999, b")"),
    (b"SELECT * FROM t GROUP BY a", b",a", 31, b""),
    (b"SELECT * FROM t ORDER BY a", b",a DESC", 31, b""),
    (
        b"DELETE t WHERE ",
        b"(",
        64,
        b"a=1))))))))))))))))))))))))))))))))))))))))))))))))))))))))))))))))",
    ),
    (
        b"INSERT t VALUES (",
        b"(",
        63,
        b"1))))))))))))))))))))))))))))))))))))))))))))))))))))))))))))))))",
    ),
];

#[test]
fn within_the_limits(rt: HostRuntime) -> Result<(), Memory> {
    for &(first, unit, count, last) in &WITHIN_THE_LIMITS {
        let text = repeated(rt.alloc(), first, unit, count, last)?;
        check_read(&rt, rt.alloc(), &text);
    }
    Ok(())
}

static OVER_THE_LIMITS: [(&[u8], &[u8], usize, &[u8], u32, u32); 12] = [
    (b"INSERT t VALUES (1)", b",(1)", 1000, b"", 10738, 4017),
    (b"INSERT t VALUES (1)", b",(1)", 1500, b"", 10738, 4017),
    (b"SELECT a", b",a", 64, b" FROM t", 50001, 136),
    (b"DELETE t WHERE a IN (1", b",1", 1000, b")", 50001, 2022),
    (
        b"DELETE t WHERE a IN (1",
        b", -1",
        1000,
        b") OR a IN (2)",
        50001,
        4021,
    ),
    (
        b"DELETE t WHERE a IN (2) OR a IN (1",
        b",1",
        1000,
        b")",
        50001,
        2034,
    ),
    (b"SELECT * FROM t GROUP BY a", b",a", 32, b"", 50001, 90),
    (
        b"SELECT * FROM t GROUP BY a",
        b",a",
        32,
        b" ORDER BY a",
        50001,
        90,
    ),
    (b"SELECT * FROM t ORDER BY a", b",a", 32, b"", 50001, 90),
    (b"SELECT a", b",a", 70, b" FROM t WHERE", 102, 162),
    (
        b"DELETE t WHERE ",
        b"(",
        65,
        b"a=1)))))))))))))))))))))))))))))))))))))))))))))))))))))))))))))))))",
        50001,
        80,
    ),
    (b"INSERT t VALUES (", b"(", 64, b"1", 50001, 81),
];

#[test]
fn over_the_limits(rt: HostRuntime) -> Result<(), Memory> {
    for &(first, unit, count, last, number, at) in &OVER_THE_LIMITS {
        let text = repeated(rt.alloc(), first, unit, count, last)?;
        check_refused::<Statements>(&rt, rt.alloc(), &text, number, at);
    }
    Ok(())
}

#[test]
fn the_longest_statement(rt: HostRuntime) -> Result<(), Memory> {
    let text = repeated(rt.alloc(), b"UPDATE t SET a=1", b",a=1+a*b", 8_000, b"")?;
    check_read(&rt, rt.alloc(), &text);
    Ok(())
}
