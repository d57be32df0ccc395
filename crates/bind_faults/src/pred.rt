//! Predicates.

ghost use Rattle.std.specs.Prelude.{◌≡◌};
ghost use Rattle.bind_faults.specs.Least.{least};
ghost use Rattle.bind_faults.specs.Predicates.{part_faults, conj_faults, pred_faults, filter_faults};

use crate::atom::atom_fault;
use crate::fault::{Fault, earlier};
use cs_types::Schema;
use tsql_trees::{ConjTree, PartTree, PredTree};

#[cycle(pred)]
fn part_fault(schema: &Schema, part: &PartTree) -> Option<Fault>
    ensures { result ≡ least (part_faults schema.now part.now) }
{
    match part {
        PartTree::Nested { pred, .. } => pred_fault(schema, pred.get()),
        PartTree::Atom(atom) => atom_fault(schema, atom),
    }
}

#[cycle(pred)]
fn conj_fault(schema: &Schema, conj: &ConjTree) -> Option<Fault>
    ensures { result ≡ least (conj_faults schema.now conj.now) }
{
    let mut found = part_fault(schema, &conj.first.part);
    for neg in conj.rest.as_slice() {
        found = earlier(found, part_fault(schema, &neg.part));
    }
    found
}

#[cycle(pred)]
fn pred_fault(schema: &Schema, pred: &PredTree) -> Option<Fault>
    ensures { result ≡ least (pred_faults schema.now pred.now) }
{
    let mut found = conj_fault(schema, &pred.first);
    for conj in pred.rest.as_slice() {
        found = earlier(found, conj_fault(schema, conj));
    }
    found
}

/// The first fault of WHERE.
pub fn filter_fault(schema: &Schema, filter: &Option<PredTree>) -> Option<Fault>
    ensures { result ≡ least (filter_faults schema.now filter.now) }
{
    match filter {
        Some(pred) => pred_fault(schema, pred),
        None => None,
    }
}
