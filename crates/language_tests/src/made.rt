// Texts whose reading is compared with what is expected, and long texts.
ghost use Rattle.std.specs.Prelude.{◌≤◌, length};

use cs_base::Memory;
use std::alloc::Global;
use std::fmt::Debug;
use std::process::Abort;
use tsql_exprs::ReadRefusal;

/// A way to read texts.
pub trait Reader {
    /// What the text is read as, as it is printed.
    fn read(alloc: Global, text: &[u8]) -> Result<String, ReadRefusal>
        requires { length text.now ≤ 131_072 };
}

/// What a text was read as, as it is printed. It takes the tree: one that a reader lets go by itself makes the reader's proof long.
pub fn print<T: Debug + Drop>(alloc: Global, tree: T) -> Result<String, ReadRefusal> {
    match format!(in alloc; "{tree:?}") {
        Ok(printed) => Ok(printed),
        Err(_) => Err(ReadRefusal::Memory),
    }
}

/// Each text is read, as what is printed so beside it.
pub fn check<R: Reader>(
    rt: &impl Abort,
    alloc: Global,
    cases: &[(&[u8], &str)],
) -> Result<(), ReadRefusal> {
    for (text, expected) in cases {
        assert!(rt; text.len() <= 131_072);
        let printed = R::read(alloc, text)?;
        assert!(rt; printed.as_str() == *expected, "{printed} at {text:?}");
    }
    Ok(())
}

/// The text is refused with the number and at the place.
pub fn check_refused<R: Reader>(rt: &impl Abort, alloc: Global, text: &[u8], number: u32, at: u32) {
    assert!(rt; text.len() <= 131_072);
    let refusal = R::read(alloc, text).err();
    assert!(rt;
        refusal == Some(ReadRefusal::At { number, at }),
        "{refusal:?} at {text:?}"
    );
}

/// Each text is refused with the number and at the place beside it.
pub fn check_refusals<R: Reader>(rt: &impl Abort, alloc: Global, cases: &[(&[u8], u32, u32)]) {
    for (text, number, at) in cases {
        check_refused::<R>(rt, alloc, text, *number, *at);
    }
}

/// A text of the first bytes, then a unit so many times, then the last bytes.
pub fn repeated(
    alloc: Global,
    first: &[u8],
    unit: &[u8],
    count: usize,
    last: &[u8],
) -> Result<Vec<u8>, Memory> {
    let mut bytes = Vec::new(alloc);
    bytes.extend_from_slice(first)?;
    for _ in 0..count {
        bytes.extend_from_slice(unit)?;
    }
    bytes.extend_from_slice(last)?;
    Ok(bytes)
}
