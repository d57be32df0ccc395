// The words that the program is given.
ghost use Rattle.std.specs.Prelude.{◌≡◌, ◌≢◌, List, String, map, drop, string_bytes, IfOk, IfErr, IsOk};
ghost use Rattle.std.specs.declared.alloc.Global.{Global};
ghost use Rattle.std.specs.Result.{ForOk};
ghost use Rattle.std.specs.Iterator.{Drains, IsFinite};
ghost use Rattle.std.specs.IoError.{error_kind};
ghost use Rattle.cs_outside.specs.Words.{AreWords};

use cs_base::Memory;
use std::alloc::Global;
use std::io;
use std::io::ErrorKind;

/// The items after the first.
fn after_first<A: Iterator<Item = String> + Drop>(
    alloc: Global,
    args: A,
) -> Result<Vec<String>, Memory>
    requires can { A.can_next args }
    requires ends { IsFinite (A.remaining args) }
    ensures { IfOk result (λ words. (all : List (String Global)) × Drains A.next_gives args all
        × (map string_bytes words.items ≡ map string_bytes (drop 1 all))) }
{
    let mut words = Vec::new(alloc);
    let mut rest = args;
    let Some(_name) = rest.next() else {
        return Ok(words);
    };
    for word in rest {
        words.push(word)?;
    }
    Ok(words)
}

/// The program's words: its arguments after the first, which is its name. Where the arguments are an error (one of them
/// is no text) there are no words. Error: `Memory`, also where that is why there are no arguments.
pub fn words<A: Iterator<Item = String> + Drop>(
    alloc: Global,
    args: io::Result<A>,
) -> Result<Vec<String>, Memory>
    requires can { ForOk args (λ a. A.can_next a) }
    requires ends { ForOk args (λ a. IsFinite (A.remaining a)) }
    ensures ok { IfOk result (λ words. AreWords A.next_gives args (map string_bytes words.items)) }
    ensures no_text { IfErr args (λ error. error_kind error ≢ ErrorKind.OutOfMemory → IsOk result) }
{
    match args {
        Ok(args) => after_first(alloc, args),
        Err(error) if error.kind() == ErrorKind::OutOfMemory => Err(Memory),
        Err(_) => Ok(Vec::new(alloc)),
    }
}
