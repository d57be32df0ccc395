use cs_base::Memory;
use shared_list::SharedList;
use std::alloc::Global;
use std::sync::Arc;
use std::test::Fail;

/// So many numbers that count up from this one.
fn numbers(alloc: Global, from: usize, count: u8) -> Result<Vec<usize>, Memory> {
    let mut numbers = Vec::new(alloc);
    for i in 0..count {
        numbers.push(from.wrapping_add(usize::from(i)))?;
    }
    Ok(numbers)
}

/// The numbers from 0 on, in chunks of these lengths.
fn list_of(alloc: Global, lengths: &[u8]) -> Result<SharedList<usize>, Memory> {
    let mut list = SharedList::new(alloc);
    for count in lengths {
        let chunk = numbers(alloc, list.len(), *count)?;
        list.append(Arc::new(alloc, chunk)?)?;
    }
    Ok(list)
}

/// Lengths of chunks, and the number of items.
static LISTS: [(&[u8], usize); 6] = [
    (&[], 0),
    (&[0, 0], 0),
    (&[3], 3),
    (&[1, 0, 2], 3),
    (&[0, 128, 1, 127], 256),
    (&[127, 129, 128, 255], 639),
];

#[test]
fn lists_have_their_items(rt: HostRuntime) -> Result<(), Fail> {
    for (lengths, total) in &LISTS {
        let list = list_of(rt.alloc(), lengths)?;
        let shared = list.share()?;
        assert!(rt; (list.len(), shared.len(), list.is_empty()) == (*total, *total, *total == 0));
        for i in 0..*total + 1 {
            let wanted = if i < *total { Some(i) } else { None };
            assert!(rt; shared.get(i).copied() == wanted, "at {i}");
        }
    }
    Ok(())
}

#[test]
fn shares_stay_as_they_were(rt: HostRuntime) -> Result<(), Fail> {
    let mut list = SharedList::from_vec(rt.alloc(), numbers(rt.alloc(), 0, 5)?)?;
    let before = list.share()?;
    list.append(Arc::new(rt.alloc(), numbers(rt.alloc(), 5, 2)?)?)?;
    assert!(rt; (before.len(), list.len()) == (5, 7));
    assert!(rt; (before.get(5).copied(), list.get(5).copied()) == (None, Some(5)));
    Ok(())
}
