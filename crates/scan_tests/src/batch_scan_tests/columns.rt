// Columns of cells in each encoding, with constants to compare them with.

use crate::made::{Cell, list};
use cs_base::Memory;
use cs_types::{ColumnType, Encoding, Loose, Value};
use std::alloc::Global;

/// A constant: a number over a power of ten, a text or a day.
#[derive(Clone, Copy)]
pub enum Constant {
    Null,
    Number(i128, u8),
    Text(&'static [u8]),
    Day(i64),
}

/// The cells of a column, and constants below, at, between and above them.
#[derive(Clone, Copy)]
pub struct Case {
    pub kind: ColumnType,
    /// The first cells. They come again and again.
    pub cells: &'static [Cell],
    /// How much higher numbers are each time; where it is not 0, a letter more stands at the end of texts.
    pub step: i64,
    /// How a packed group of 400 rows and more keeps them.
    pub encoding: Encoding,
    pub constants: &'static [Constant],
}

/// The letter of a time.
fn letter(time: usize) -> u8 {
    b'a' + (time % 26) as u8
}

impl Case {
    /// How often each of the first cells has come before a row.
    fn time(&self, row: usize) -> usize {
        if self.cells.is_empty() {
            0
        } else {
            row / self.cells.len()
        }
    }

    /// Which of the first cells comes in a row.
    fn first(&self, row: usize) -> Cell {
        if self.cells.is_empty() {
            Cell::Null
        } else {
            self.cells[row % self.cells.len()]
        }
    }

    /// The cell of a row.
    pub fn cell(&self, alloc: Global, row: usize) -> Result<Value, Memory> {
        let time = self.time(row);
        match self.first(row) {
            Cell::Null => Ok(Value::Null),
            Cell::Number(number) => {
                let more = self.step.wrapping_mul((time % 1000) as i64);
                Ok(Value::Number(number.wrapping_add(more)))
            }
            Cell::Text(text) => {
                let mut bytes = list(alloc, text)?;
                if self.step != 0 {
                    bytes.push(letter(time))?;
                }
                Ok(Value::Text(bytes))
            }
        }
    }

    /// The constant at a place, NULL past the last one.
    pub fn constant(&self, alloc: Global, at: usize) -> Result<Loose, Memory> {
        match self.constants.get(at) {
            None => Ok(Loose::Null),
            Some(constant) => match *constant {
                Constant::Null => Ok(Loose::Null),
                Constant::Number(m, s) => Ok(Loose::Number { m, s }),
                Constant::Text(text) => Ok(Loose::Text(list(alloc, text)?)),
                Constant::Day(day) => Ok(Loose::Day(day)),
            },
        }
    }
}

/// Three and odd numbers above it.
const ODD: &[Cell] = &[
    Cell::Number(3),
    Cell::Number(5),
    Cell::Null,
    Cell::Number(7),
    Cell::Number(9),
];

const NINE: i64 = 9_000_000_000_000_000_000;

const FOUR: i64 = 4_000_000_000_000_000_001;

/// Numbers and texts in each encoding, with NULLs and without, decimals, days, and columns of NULLs alone.
pub static CASES: [Case; 11] = [
    Case {
        kind: ColumnType::Int,
        cells: ODD,
        step: 10,
        encoding: Encoding::ValuePacked,
        constants: &[
            Constant::Number(2, 0),
            Constant::Number(3, 0),
            Constant::Number(15, 0),
            Constant::Number(16, 0),
            Constant::Number(5_000_000_000, 0),
            Constant::Number(155, 1),
            Constant::Number(150, 1),
        ],
    },
    Case {
        kind: ColumnType::SmallInt,
        cells: ODD,
        step: 0,
        encoding: Encoding::ValueRuns,
        constants: &[
            Constant::Number(2, 0),
            Constant::Number(3, 0),
            Constant::Number(6, 0),
            Constant::Number(9, 0),
            Constant::Number(10, 0),
            Constant::Number(55, 1),
            Constant::Number(500, 2),
        ],
    },
    Case {
        kind: ColumnType::TinyInt,
        cells: &[Cell::Number(0), Cell::Number(1), Cell::Number(255)],
        step: 0,
        encoding: Encoding::ValueRuns,
        constants: &[
            Constant::Number(-1, 0),
            Constant::Number(0, 0),
            Constant::Number(1, 1),
            Constant::Number(100, 2),
            Constant::Number(255, 0),
            Constant::Number(256, 0),
        ],
    },
    Case {
        kind: ColumnType::BigInt,
        cells: &[
            Cell::Number(-NINE),
            Cell::Number(-3),
            Cell::Null,
            Cell::Number(FOUR),
        ],
        step: 10_000_000_000_000_000,
        encoding: Encoding::DictPacked,
        constants: &[
            Constant::Number(-10_000_000_000_000_000_000, 0),
            Constant::Number(-9_000_000_000_000_000_000, 0),
            Constant::Number(-35, 1),
            Constant::Number(-30, 1),
            Constant::Number(0, 0),
            Constant::Number(4_000_000_000_000_000_001, 0),
            Constant::Number(10_000_000_000_000_000_000, 0),
        ],
    },
    Case {
        kind: ColumnType::BigInt,
        cells: &[
            Cell::Number(i64::MIN),
            Cell::Number(-3),
            Cell::Null,
            Cell::Number(FOUR),
            Cell::Number(i64::MAX),
        ],
        step: 0,
        encoding: Encoding::DictRuns,
        constants: &[
            Constant::Number(-9_223_372_036_854_775_809, 0),
            Constant::Number(-9_223_372_036_854_775_808, 0),
            Constant::Number(-25, 1),
            Constant::Number(-3, 0),
            Constant::Number(9_223_372_036_854_775_807, 0),
            Constant::Number(9_223_372_036_854_775_808, 0),
        ],
    },
    Case {
        kind: ColumnType::Decimal { p: 9, s: 2 },
        cells: &[
            Cell::Number(-200),
            Cell::Number(100),
            Cell::Null,
            Cell::Number(1_550),
        ],
        step: 100,
        encoding: Encoding::ValuePacked,
        constants: &[
            Constant::Number(-3, 0),
            Constant::Number(-2, 0),
            Constant::Number(155, 1),
            Constant::Number(1_550, 2),
            Constant::Number(15_505, 3),
            Constant::Number(15_499, 3),
            Constant::Number(10_000, 0),
        ],
    },
    Case {
        kind: ColumnType::Date,
        cells: &[
            Cell::Number(-1),
            Cell::Number(0),
            Cell::Null,
            Cell::Number(19_000),
        ],
        step: 5,
        encoding: Encoding::ValuePacked,
        constants: &[
            Constant::Day(-2),
            Constant::Day(-1),
            Constant::Day(5),
            Constant::Day(6),
            Constant::Day(30_000),
        ],
    },
    Case {
        kind: ColumnType::VarChar { n: 4 },
        cells: &[
            Cell::Text(b""),
            Cell::Text(b"a"),
            Cell::Text(b"ab"),
            Cell::Null,
            Cell::Text(b"b b"),
        ],
        step: 1,
        encoding: Encoding::DictPacked,
        constants: &[
            Constant::Text(b""),
            Constant::Text(b"a"),
            Constant::Text(b"aba"),
            Constant::Text(b"abaa"),
            Constant::Text(b"b bz"),
            Constant::Text(b"zz"),
        ],
    },
    Case {
        kind: ColumnType::VarChar { n: 3 },
        cells: &[
            Cell::Text(b"a"),
            Cell::Text(b"ab"),
            Cell::Null,
            Cell::Text(b"b"),
            Cell::Text(b"~"),
        ],
        step: 0,
        encoding: Encoding::DictRuns,
        constants: &[
            Constant::Text(b"A"),
            Constant::Text(b"a"),
            Constant::Text(b"aa"),
            Constant::Text(b"b"),
            Constant::Text(b"~"),
            Constant::Text(b"~~"),
        ],
    },
    Case {
        kind: ColumnType::Int,
        cells: &[Cell::Null],
        step: 0,
        encoding: Encoding::DictPacked,
        constants: &[Constant::Number(0, 0)],
    },
    Case {
        kind: ColumnType::VarChar { n: 1 },
        cells: &[Cell::Null],
        step: 0,
        encoding: Encoding::DictPacked,
        constants: &[Constant::Text(b"")],
    },
];
