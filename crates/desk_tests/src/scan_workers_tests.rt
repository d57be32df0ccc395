// Workers that wait for each other as they begin. One thread that did the parts of a scan one after the other would not end such a
// wait.
ghost use Rattle.std.specs.Prelude.{◌≡◌, [], ◌∷◌, map, pos, false, All, IfOk, None};
ghost use Rattle.std.specs.List.{flat_map, range_with_len};
ghost use Rattle.cs_types.specs.declared.ColumnType.TheVariants.{BigInt};
ghost use Rattle.cs_types.specs.declared.Value.TheVariants.{Number};
ghost use Rattle.cs_types.specs.Schemas.{IsSchema};
ghost use Rattle.group_view.specs.Parts.{rowed_in, IsFitting};
ghost use Rattle.row_work.specs.Reads.{MayRead};

use crate::looks::LOOKS;
use cs_base::{Items, Memory};
use cs_model::{AnswerRow, Item, Query};
use cs_types::{Column, ColumnType, Key, Loose, Row, Schema, Value};
use delete_buffer::Buffer;
use delta_store::Delta;
use group_view::{GroupPart, GroupView, Pinned};
use shared_list::SharedList;
use statement_work::{Turn, answer};
use std::alloc::Global;
use std::hint;
use std::process::Abort;
use std::sync::Arc;
use std::sync::atomic::{AtomicBool, AtomicU64, Ordering};
use std::test::Fail;
use std::thread::Threads;
use write_set::Own;

/// Where workers wait for each other.
#[derive(Drop)]
struct Meeting {
    /// How often each of them has begun, by its number less 1.
    begun: Vec<AtomicU64>,
    /// Whether there was a worker more, or one that saw not all of them within its looks.
    missed: AtomicBool,
}

impl Meeting {
    /// A meeting of so many workers.
    fn new(alloc: Global, workers: u32) -> Result<Meeting, Memory> {
        let mut begun = Vec::new(alloc);
        for _ in 0..workers {
            begun.push(AtomicU64::new(0))?;
        }
        Ok(Meeting {
            begun,
            missed: AtomicBool::new(false),
        })
    }

    /// Waits until all of them have begun, or one of them has given up.
    fn wait(&self) {
        for _ in 0..LOOKS {
            if self
                .begun
                .iter()
                .all(|count| count.load(Ordering::SeqCst) != 0)
            {
                return;
            }
            if self.missed.load(Ordering::SeqCst) {
                return;
            }
            hint::spin_loop();
        }
        self.missed.store(true, Ordering::SeqCst);
    }

    /// Whether each of them has begun once, and saw the others.
    fn was_held(&self) -> bool {
        let once = self
            .begun
            .iter()
            .all(|count| count.load(Ordering::SeqCst) == 1);
        once && !self.missed.load(Ordering::SeqCst)
    }
}

impl Turn for Meeting {
    fn begins(&self, worker: u32) {
        match self.begun.get((worker as usize).wrapping_sub(1)) {
            Some(count) => {
                count.fetch_add(1, Ordering::SeqCst);
            }
            None => self.missed.store(true, Ordering::SeqCst),
        }
        self.wait();
    }
}

/// The table `t (k bigint NOT NULL PRIMARY KEY)`.
fn table(alloc: Global) -> Result<Schema, Memory>
    ensures schema { IfOk result IsSchema }
    ensures is { IfOk result (λ schema. schema ≡ record { name = 116 ∷ []; columns = record { name = 107 ∷ []; kind = BigInt; nullable = false } ∷ []; key = 0 }) }
{
    let mut letter = Items::new(alloc);
    letter.push(b'k')?;
    let mut columns = Items::new(alloc);
    columns.push(Column {
        name: letter,
        kind: ColumnType::BigInt,
        nullable: false,
    })?;
    let mut name = Items::new(alloc);
    name.push(b't')?;
    Ok(Schema {
        name,
        columns,
        key: 0,
    })
}

/// A store of one row, with this key.
fn store_of(alloc: Global, key: u8) -> Result<GroupPart, Memory>
    ensures rows { IfOk result (λ part. rowed_in part ≡ record { version = record { key = record { 0 = pos key }; begin = 1; end = None }; row = Number (pos key) ∷ [] } ∷ []) }
    ensures fitting { IfOk result IsFitting }
{
    let mut row = Row::new(alloc);
    row.push(Value::Number(i64::from(key)))?;
    let mut store = Delta::new(alloc);
    store.reserve(1)?;
    store.insert(row, Key(i64::from(key)), 1);
    Ok(GroupPart::Store(Arc::new(alloc, store.freeze())?))
}

/// So many groups, each of one row. Their keys count up from 0.
fn groups_of(alloc: Global, count: u8) -> Result<Items<(u64, GroupPart)>, Memory>
    ensures rows { IfOk result (λ groups. flat_map (λ group. rowed_in group.1) groups ≡ map (λ key. record { version = record { key = record { 0 = pos key }; begin = 1; end = None }; row = Number (pos key) ∷ [] }) (range_with_len 0 count)) }
    ensures fitting { IfOk result (λ groups. All (λ group. IsFitting group.1) groups) }
{
    let mut groups = Items::new(alloc);
    for key in 0..count {
        let store = store_of(alloc, key)?;
        groups.push((u64::from(key) + 1, store))?;
    }
    Ok(groups)
}

/// What is pinned where a table has so many groups, each of one row.
fn pinned_of(alloc: Global, count: u8) -> Result<Pinned, Memory>
    ensures { IfOk result (λ pinned. (schema : Schema) → IsSchema schema → schema ≡ record { name = 116 ∷ []; columns = record { name = 107 ∷ []; kind = BigInt; nullable = false } ∷ []; key = 0 } → MayRead schema pinned) }
{
    let groups = groups_of(alloc, count)?;
    let mut buffer = Buffer::new(alloc);
    Ok(Pinned {
        view: GroupView {
            groups: SharedList::from_vec(alloc, groups.into_vec())?,
            buffer: buffer.copy()?,
            floor: 1,
            clock: 1,
        },
        own: Own::empty(),
        snapshot: 1,
    })
}

/// `SELECT COUNT(*), SUM(k) FROM t`
fn count_and_sum(alloc: Global) -> Result<Query, Memory> {
    let mut items = Items::new(alloc);
    items.push(Item::CountAll)?;
    items.push(Item::Sum(0))?;
    Ok(Query {
        items,
        filter: None,
        groups: Items::new(alloc),
        grouped: true,
        order: Items::new(alloc),
    })
}

/// The answer of one row with a count and a sum, NULL for None.
fn answer_of(alloc: Global, count: u8, sum: Option<i128>) -> Result<Items<AnswerRow>, Memory> {
    let mut row = Items::new(alloc);
    row.push(Loose::Number {
        m: i128::from(count),
        s: 0,
    })?;
    row.push(match sum {
        Some(m) => Loose::Number { m, s: 0 },
        None => Loose::Null,
    })?;
    let mut rows = Items::new(alloc);
    rows.push(row)?;
    Ok(rows)
}

/// The groups of a table, each of one row; the sum of their keys; and the workers that are asked for, with how many of them begin.
type Case = (u8, Option<i128>, &'static [(u32, u32)]);

static CASES: [Case; 4] = [
    (0, None, &[(1, 1), (16, 1)]),
    (2, Some(1), &[(1, 1), (2, 2)]),
    (3, Some(3), &[(1, 1), (3, 3), (16, 3)]),
    (16, Some(120), &[(1, 1), (3, 3), (16, 16)]),
];

/// Asks for the answer of a case with each number of workers.
fn check(rt: &(impl Abort + Threads), alloc: Global, case: &Case) -> Result<(), Fail> {
    let (groups, sum, calls) = case;
    let schema = table(alloc)?;
    let query = count_and_sum(alloc)?;
    let pinned = pinned_of(alloc, *groups)?;
    let expected = answer_of(alloc, *groups, *sum)?;
    for (workers, begun) in *calls {
        assert!(rt; 1 <= *workers && *workers <= 16);
        let meeting = Meeting::new(alloc, *begun)?;
        let found = answer(rt, alloc, &meeting, *workers, &schema, &query, &pinned)?;
        let is_right = found.rows == expected && found.read == 0 && found.skipped == 0;
        // What is let go by a call has a short proof, and what is let go at the end of its scope a long one.
        drop(found);
        assert!(rt;
            is_right && meeting.was_held(),
            "{workers} workers over {groups} groups"
        );
    }
    drop(pinned);
    drop(query);
    drop(schema);
    Ok(())
}

#[test]
fn workers_begin_side_by_side(rt: HostRuntime) -> Result<(), Fail> {
    for case in &CASES {
        check(&rt, rt.alloc(), case)?;
    }
    Ok(())
}
