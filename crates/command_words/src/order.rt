// What the program is to do.
ghost use Rattle.std.specs.Prelude.{◌≡◌, map, string_bytes, IfSome, Some};
ghost use Rattle.command_words.specs.declared.order.Order.{Order};
ghost use Rattle.command_words.specs.Orders.{Words, IsInRange, IsOrder};

use crate::mode::Mode;

/// How a script is run.
#[derive(Clone, Copy, Debug, PartialEq, Eq)]
pub struct RunOptions {
    /// The most versions of a group, 2 to 1,048,576.
    pub group_rows: u32,
    /// From how many rows on a commit loads them directly, 1 to 1,048,576.
    pub direct_rows: u32,
    /// How many workers a scan has, 1 to 16.
    pub workers: u32,
}

/// A workload that is drawn: a script of statements.
#[derive(Clone, Copy, Debug, PartialEq, Eq)]
pub struct Workload {
    /// The number that it is drawn from, 0 to 2,147,483,647.
    pub number: u32,
    /// How many sessions take turns, 1 to 64.
    pub sessions: u32,
    /// How many statements it has, 0 to 200,000.
    pub statements: u32,
}

/// What the program is to do.
#[derive(Clone, Copy, Debug, PartialEq, Eq)]
pub enum Order {
    /// Replay the script of the input, line by line.
    Replay(RunOptions),
    /// Run the sessions of the script of the input, each on a thread of its own.
    Run {
        options: RunOptions,
        /// How many movers work beside the sessions, 0 to 8.
        movers: u32,
    },
    /// Write the script of a workload.
    Generate(Workload),
    /// Replay the script of a workload.
    Load {
        workload: Workload,
        options: RunOptions,
    },
}

impl Order {
    /// The order that the words are, without the program's name: the first one is the mode, and after it stand pairs of an
    /// option of that mode and its value, in any order, no option twice. A value is 1 to 10 digits whose number is in the
    /// option's range. An option that does not stand has its usual value. None of all other words.
    pub fn of_words(words: &[String]) -> Option<Order>
        // An order that is given is that of the words.
        ensures found { IfSome result (λ order. IsOrder (map string_bytes words.now) order) }
        // Whatever order the words are, it is given: they are at most one, and None says that they are none.
        ensures only { (order : Order) → IsOrder (map string_bytes words.now) order → result ≡ Some order }
    {
        let (word, pairs) = words.split_first()?;
        let mode = Mode::of_word(word.as_str())?;
        mode.order(pairs)
    }
}

/// An order that words are has values in the ranges of its options. The function does nothing: its contract is a law that is
/// proved.
pub fn orders_are_in_range()
    ensures { (words : Words) (order : Order) → IsOrder words order → IsInRange order }
{}
