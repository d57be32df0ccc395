//! The terminals of the grammar, and the symbols of a text.

ghost use Rattle.std.specs.Prelude.{◌≡◌};
ghost use Rattle.tsql_grammar.specs.Terminals.{same};

/// The terminals of the grammar: its reserved words, the names that stand for themselves in some places, the signs, and
/// the classes of names (`Plain`), numbers, texts and reserved words that the grammar has no form for (`Outside`).
#[derive(Clone, Copy, Debug, PartialEq, Eq)]
pub enum Terminal {
    All,
    Alter,
    And,
    Asc,
    Begin,
    Between,
    By,
    Clustered,
    Commit,
    Constraint,
    Create,
    Delete,
    Desc,
    From,
    Group,
    In,
    Index,
    Insert,
    Into,
    Is,
    Key,
    Like,
    Nonclustered,
    Not,
    Null,
    Off,
    On,
    Or,
    Order,
    Primary,
    Rollback,
    Select,
    Set,
    Table,
    Tran,
    Transaction,
    Update,
    Values,
    Where,
    With,
    Plain,
    Work,
    Isolation,
    Level,
    Snapshot,
    Statistics,
    Io,
    LockTimeout,
    Reorganize,
    CompressAllRowGroups,
    GenerateSeries,
    Count,
    Sum,
    Min,
    Max,
    Avg,
    Tinyint,
    Smallint,
    Int,
    Integer,
    Bigint,
    Date,
    Decimal,
    Numeric,
    Varchar,
    Columnstore,
    OpenSign,
    CloseSign,
    CommaSign,
    PointSign,
    SemicolonSign,
    StarSign,
    PlusSign,
    MinusSign,
    SlashSign,
    PercentSign,
    EqualSign,
    UnequalSign,
    BangEqualSign,
    LessSign,
    LessEqualSign,
    GreaterSign,
    GreaterEqualSign,
    Number,
    Text,
    Outside,
}

/// A token of a text as the grammar sees it: its terminal, the place of its first byte counted from 1, and the number
/// of its bytes.
#[derive(Clone, Copy, Debug)]
pub struct Symbol {
    pub terminal: Terminal,
    pub place: u32,
    pub size: u32,
}

/// Whether two terminals are one.
pub fn is_same(terminal: Terminal, other: Terminal) -> bool
    ensures { result ≡ same terminal other }
{
    terminal == other
}
