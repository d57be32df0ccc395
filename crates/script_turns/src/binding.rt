// What the text of a statement means, and what it is bound to.
ghost use Rattle.std.specs.Prelude.{◌≡◌, ◌≤◌, ℕ, List, length, Result, IfOk};
ghost use Rattle.cs_model.specs.declared.entry.Bound.{Bound};
ghost use Rattle.cs_model.specs.Ready.{IsReady};
ghost use Rattle.tsql_exprs.specs.Refusals.{AnswersOnly};
ghost use Rattle.tsql_reader.specs.Statements.{IsNoStatement, RefusesStatement};
ghost use Rattle.bind_faults.specs.declared.fault.Fault.{Fault};
ghost use Rattle.tsql_binder.specs.Meaning.{GivesBound};
ghost use Rattle.script_turns.specs.Texts.{bound_or, Means};
ghost use Rattle.script_turns.specs.Turns.{IsBound};

use cs_base::Memory;
use cs_model::{Bound, Refusal};
use cs_types::Schema;
use std::alloc::Global;
use tsql_binder::{BindRefusal, bind};
use tsql_exprs::ReadRefusal;
use tsql_reader::read_statement;

fn refused(number: u32, at: u32) -> Bound
    ensures { result ≡ Bound.Refused (Refusal.Reading number at) }
{
    Bound::Refused(Refusal::Reading { number, at })
}

/// What a statement means: its bound form, or its refusal.
fn meaning(bound: Result<Bound, BindRefusal>) -> Result<Bound, Memory>
    ensures { (wanted : Result Bound Fault) → GivesBound wanted bound → IfOk result (λ b. b ≡ bound_or wanted) }
{
    match bound {
        Ok(bound) => Ok(bound),
        Err(BindRefusal::At { number, at }) => Ok(refused(number, at)),
        Err(BindRefusal::Memory) => Err(Memory),
    }
}

/// What a text that is no statement means: its refusal.
fn unread(refusal: ReadRefusal) -> Result<Bound, Memory>
    ensures only { (number at : ℕ) → AnswersOnly number at refusal → IfOk result (λ b. b ≡ Bound.Refused (Refusal.Reading number at)) }
    ensures refused { (text : List ℕ) → RefusesStatement text refusal → IfOk result (λ b. (number : ℕ) × (at : ℕ) × IsNoStatement text number at × (b ≡ Bound.Refused (Refusal.Reading number at))) }
{
    match refusal {
        ReadRefusal::At { number, at } => Ok(refused(number, at)),
        ReadRefusal::Memory => Err(Memory),
    }
}

/// What a text of at most 131,072 bytes means over a schema: the bound form of its statement, or the refusal by its tokens,
/// by the grammar, by a limit or by binding, in this order. `Memory` where there is no room for it.
pub fn bind_text(alloc: Global, schema: &Schema, text: &[u8]) -> Result<Bound, Memory>
    requires { length text.now ≤ 131_072 }
    // What is given is what the text means.
    ensures found { IfOk result (λ bound. Means schema.now text.now bound) }
    // It means nothing else.
    ensures only { (other : Bound) → Means schema.now text.now other → IfOk result (λ bound. bound ≡ other) }
    // It can be run: an UPDATE sets no key, and a refusal is one of reading.
    ensures ready { IfOk result (IsReady schema.now) }
{
    match read_statement(alloc, text) {
        Ok(statement) => meaning(bind(alloc, schema, &statement)),
        Err(refusal) => unread(refusal),
    }
}

/// What the text of a statement is bound to: what it means over the table, or a refusal where there is no memory for that. Condition:
/// the text has at most 65,536 bytes.
pub fn bound_of(alloc: Global, schema: &Schema, text: &[u8]) -> Bound
    requires { length text.now ≤ 65_536 }
    ensures bound { IsBound schema.now text.now result }
    ensures ready { IsReady schema.now result }
{
    match bind_text(alloc, schema, text) {
        Ok(bound) => bound,
        Err(_) => Bound::Refused(Refusal::Memory),
    }
}
