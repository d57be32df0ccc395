// Writes laid over a long list in one pass.
ghost use Rattle.std.specs.Prelude.{◌≡◌, ◌+◌, ◌<◌, ◌≤◌, ◌++◌, false, vec_len, vec_capacity, IfOk};
ghost use Rattle.std.specs.List.{All};
ghost use Rattle.std.specs.VecDeque.{deque_len};
ghost use Rattle.std.specs.declared.cmp.Ordering.TheVariants.{Less};
ghost use Rattle.cs_types.specs.declared.Key.{Key};
ghost use Rattle.cs_types.specs.Keys.{key_cmp};
ghost use Rattle.write_set.specs.declared.write.Write.{Write};
ghost use Rattle.write_set.specs.Writes.{Ascend, put, staged, is_front_below, is_front_of, without_front};

use crate::write::Write;
use cs_base::Memory;
use cs_types::Key;
use std::alloc::Global;
use std::collections::VecDeque;

/// Whether the first write has a smaller key.
fn is_front_smaller(rest: &VecDeque<Write>, key: Key) -> bool
    ensures { result ≡ is_front_below rest.now.items key }
{
    match rest.front() {
        None => false,
        Some(write) => write.key < key,
    }
}

/// Whether the first write is of the key.
fn is_front_equal(rest: &VecDeque<Write>, key: Key) -> bool
    ensures { result ≡ is_front_of rest.now.items key }
{
    match rest.front() {
        None => false,
        Some(write) => write.key == key,
    }
}

/// Moves the writes of smaller keys over, behind others of smaller keys.
fn pass_smaller(done: &mut Vec<Write>, rest: &mut VecDeque<Write>, key: Key)
    requires below { All (λ (write : Write). key_cmp write.key key ≡ Less) done.old.items }
    requires room { vec_len done.old + deque_len rest.old ≤ vec_capacity done.old }
    ensures below { All (λ (write : Write). key_cmp write.key key ≡ Less) done.new.items }
    ensures items { done.new.items ++ rest.new.items ≡ done.old.items ++ rest.old.items }
    ensures reached { is_front_below rest.new.items key ≡ false }
    ensures len { vec_len done.new + deque_len rest.new ≡ vec_len done.old + deque_len rest.old }
    ensures capacity { vec_capacity done.new ≡ vec_capacity done.old }
{
    while is_front_smaller(rest, key) {
        let Some(write) = rest.pop_front() else {
            return;
        };
        done.push_reserved(write);
    }
}

/// Drops the first write, where it is of the key.
fn drop_equal(rest: &mut VecDeque<Write>, key: Key)
    ensures items { rest.new.items ≡ without_front rest.old.items key }
    ensures len { deque_len rest.new ≤ deque_len rest.old }
{
    if is_front_equal(rest, key) {
        rest.pop_front();
    }
}

/// Lays one write over a list whose first part is done already, and has smaller keys.
fn lay_one(done: &mut Vec<Write>, rest: &mut VecDeque<Write>, write: Write)
    requires order { Ascend (done.old.items ++ rest.old.items) }
    requires below { All (λ (other : Write). key_cmp other.key write.key ≡ Less) done.old.items }
    requires room { vec_len done.old + deque_len rest.old < vec_capacity done.old }
    ensures items { done.new.items ++ rest.new.items ≡ put (done.old.items ++ rest.old.items) write }
    ensures below { (key : Key) → key_cmp write.key key ≡ Less → All (λ (other : Write). key_cmp other.key key ≡ Less) done.new.items }
    ensures len { vec_len done.new + deque_len rest.new ≤ vec_len done.old + deque_len rest.old + 1 }
    ensures capacity { vec_capacity done.new ≡ vec_capacity done.old }
{
    pass_smaller(done, rest, write.key);
    drop_equal(rest, write.key);
    done.push_reserved(write);
}

/// Moves the rest over.
fn pass_all(done: &mut Vec<Write>, rest: VecDeque<Write>)
    requires { vec_len done.old + deque_len rest ≤ vec_capacity done.old }
    ensures { done.new.items ≡ done.old.items ++ rest.items }
{
    let mut rest = rest.into_vec();
    match done.append(&mut rest) {
        Ok(()) => {}
        Err(_) => unreachable!(),
    }
}

/// Lays writes over a list in one pass, both in the order of their keys.
pub fn lay_all(alloc: Global, own: Vec<Write>, writes: Vec<Write>) -> Result<Vec<Write>, Memory>
    requires own { Ascend own.items }
    requires writes { Ascend writes.items }
    ensures items { IfOk result (λ all. all.items ≡ staged own.items writes.items) }
    ensures order { IfOk result (λ all. Ascend all.items) }
{
    let mut done = Vec::with_capacity(alloc, own.len() + writes.len())?;
    let mut rest = VecDeque::from_vec(own);
    for write in writes {
        lay_one(&mut done, &mut rest, write);
    }
    pass_all(&mut done, rest);
    Ok(done)
}
