//! Columns' types.

use crate::leaf::NumberTree;

/// ```text
/// type = TINYINT | SMALLINT | INT | INTEGER | BIGINT | DATE
///      | (DECIMAL | NUMERIC) ["(" number ["," number] ")"]
///      | VARCHAR ["(" number ")"]
/// ```
/// The place is that of the type's word.
#[derive(Clone, Copy, Debug)]
pub enum TypeTree {
    Plain {
        place: u32,
        kind: PlainType,
    },
    Decimal {
        place: u32,
        digits: Option<(NumberTree, Option<NumberTree>)>,
    },
    VarChar {
        place: u32,
        size: Option<NumberTree>,
    },
}

/// The types that are one word.
#[derive(Clone, Copy, Debug, PartialEq, Eq)]
pub enum PlainType {
    TinyInt,
    SmallInt,
    Int,
    BigInt,
    Date,
}
