// A settle: ends that every snapshot sees become plain.
ghost use Rattle.std.specs.Prelude.{◌≡◌, ◌+◌, ◌≤◌, [], ◌∷◌, map, length, count_by, All, IfOk, OnOk, OnErr, vec_len};
ghost use Rattle.std.specs.List.{AllZip};
ghost use Rattle.delete_bitmap.specs.Marks.{is_settling, settled};
ghost use Rattle.group_book.specs.Choices.{settling_count};
ghost use Rattle.group_book.specs.Turns.{after_settle};
ghost use Rattle.group_view.specs.Books.{book_of, claim_of, group_of};
ghost use Rattle.group_view.specs.Lists.{packed_in, IsFittingContent, IsHeld};
ghost use Rattle.group_view.specs.Seen.{rooted_in};
ghost use Rattle.group_directory.specs.Settling.{marked, settling_in, with_marks, IsSettledBy};

use cs_base::Memory;
use cs_model::Actor;
use delete_bitmap::Marks;
use group_view::{Claim, Group, GroupContent, GroupList, Groups, is_claimed, settles};
use std::alloc::Global;
use std::sync::Arc;

/// What a settle makes of the groups: a new bitmap, or none, for each of them; and the number of ends that become plain.
#[derive(Drop)]
struct Settling {
    marks: Vec<Option<Arc<Marks>>>,
    number: u64,
}

/// A copy of a bitmap in which stamped ends at most the floor are plain, and their number.
fn settled_copy(alloc: Global, marks: &Marks, floor: u64) -> Result<(Arc<Marks>, u64), Memory>
    ensures marks { IfOk result (λ made. let copy = made.0 in copy.value ≡ map (settled floor) marks.now) }
    ensures number { IfOk result (λ made. made.1 ≡ count_by (is_settling floor) marks.now) }
{
    let mut copy = marks.copy()?;
    let number = copy.settle(floor);
    let shared = Arc::new(alloc, copy)?;
    Ok((shared, number))
}

/// The new bitmap of a group, none where the group stays as it is; and the number of ends that become plain.
fn new_marks(
    alloc: Global,
    group: &Group,
    claims: &[(Actor, Claim)],
    floor: u64,
) -> Result<(Option<Arc<Marks>>, u64), Memory>
    requires { IsFittingContent group.now.content }
    ensures marks { IfOk result (λ made. IsSettledBy floor (map claim_of claims.now) group.now made.0) }
    ensures number { IfOk result (λ made. made.1 ≡ settling_in floor (map claim_of claims.now) (group_of group.now ∷ [])) }
{
    let GroupContent::Compressed(_, marks) = &group.content else {
        return Ok((None, 0));
    };
    if is_claimed(claims, group.id) || !settles(group, floor) {
        return Ok((None, 0));
    }
    let made = settled_copy(alloc, marks, floor)?;
    Ok((Some(made.0), made.1))
}

/// The sum of two numbers of ends. `Memory` where it passes 2^64: no memory holds as many.
fn added(number: u64, more: u64) -> Result<u64, Memory>
    ensures { IfOk result (λ sum. sum ≡ number + more) }
{
    match number.checked_add(more) {
        Some(sum) => Ok(sum),
        None => Err(Memory),
    }
}

/// What a settle makes of all groups. It changes none of them.
fn settling_of(alloc: Global, list: &GroupList, floor: u64) -> Result<Settling, Memory>
    requires { All (λ group. IsFittingContent group.content) list.now.groups.items }
    ensures marks { IfOk result (λ settling. AllZip (IsSettledBy floor (map claim_of list.now.claims.items)) list.now.groups.items settling.marks.items) }
    ensures number { IfOk result (λ settling. settling.number ≡ settling_count floor (book_of list.now)) }
{
    let mut marks = Vec::with_capacity(alloc, list.groups.len())?;
    let mut number = 0;
    for group in list.groups.as_slice() {
        let made = new_marks(alloc, group, &list.claims, floor)?;
        let sum = added(number, made.1)?;
        marks.push(made.0)?;
        number = sum;
    }
    Ok(Settling { marks, number })
}

/// Gives a packed group its new bitmap, if there is one.
fn put_marks(content: &mut GroupContent, marks: Option<Arc<Marks>>)
    ensures { content.new ≡ marked marks content.old }
{
    let Some(marks) = marks else {
        return;
    };
    if let GroupContent::Compressed(_, old) = content {
        *old = marks;
    }
}

/// Gives the groups their new bitmaps, from the last one on. It takes no memory.
fn put_each(groups: &mut [Group], mut marks: Vec<Option<Arc<Marks>>>)
    requires { vec_len marks ≤ length groups.old }
    ensures { groups.new ≡ with_marks marks.items groups.old }
{
    while let Some(last) = marks.pop() {
        put_marks(&mut groups[marks.len()].content, last);
    }
}

/// Makes stamped ends at most the floor plain, in COMPRESSED groups that no claim has, and gives their number. A bitmap that has
/// such an end is copied, since a view may share it; all copies come before the first change. After `Memory` nothing has
/// changed.
pub(crate) fn settle(alloc: Global, list: &mut GroupList, floor: u64) -> Result<u64, Memory>
    requires { IsHeld list.old }
    ensures book { OnOk result (book_of list.new ≡ after_settle floor (book_of list.old)) }
    ensures number { IfOk result (λ number. number ≡ settling_count floor (book_of list.old)) }
    ensures same { OnErr result (list.new ≡ list.old) }
    ensures held { IsHeld list.new }
    ensures claims { list.new.claims ≡ list.old.claims }
    ensures rows { rooted_in list.new.groups.items ≡ rooted_in list.old.groups.items }
    ensures packed { packed_in list.new.groups.items ≡ packed_in list.old.groups.items }
{
    let settling = settling_of(alloc, list, floor)?;
    let mut groups = list.groups.take();
    put_each(&mut groups, settling.marks);
    list.groups = Groups::from_vec(groups);
    Ok(settling.number)
}
