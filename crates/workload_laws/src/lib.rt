//! The laws of generated workloads, as functions that do nothing.
//!
//! `workload_is_script`: a workload is a script, so who reads one that it drew is refused for want of memory alone, and never
//! for a bad line. `workload_has_no_reorganize`: none of its texts means a REORGANIZE. They stand on `script_workload`, which
//! defines workloads, on `script_reader`, which defines scripts, and on `script_turns`, which defines what a text means.
#![tactic(auto)]

ghost use Rattle.std.specs.Prelude.{◌≡◌, ◌≤◌, ◌<◌, ℕ, length, Bool, true, All};
ghost use Rattle.std.specs.List.{list_all};
ghost use Rattle.cs_model.specs.declared.entry.Bound.TheVariants.{Reorganize};
ghost use Rattle.script_reader.specs.declared.script.Mode.TheVariants as Mode;
ghost use Rattle.script_reader.specs.Scripts.{text_of, IsScript};
ghost use Rattle.script_turns.specs.Texts.{Means};
ghost use Rattle.script_workload.specs.Workload.{workload};
ghost use Rattle.workload_laws.specs.Scripts.{workload_table, workload_script, is_whole};

/// The workload of a number, for 1 to 64 sessions, is a script: that of its table and of the step of each of its lines, whose
/// sessions are those that a line names. Each step is a whole statement or a whole turn, so nothing is half done between two
/// of them. Up to 200,000 statements it has less than 16 MiB.
pub fn workload_is_script()
    ensures script { (number sessions statements : ℕ) → 1 ≤ sessions → sessions ≤ 64 → IsScript Mode.Replay (workload number sessions statements) (workload_script number sessions statements) }
    ensures whole { (number sessions statements : ℕ) → list_all is_whole (workload_script number sessions statements).lines ≡ true }
    ensures size { (number sessions statements : ℕ) → 1 ≤ sessions → sessions ≤ 64 → statements ≤ 200000 → length (workload number sessions statements) < 16777216 }
{}

/// No text of a step of a workload means a REORGANIZE of its table.
pub fn workload_has_no_reorganize()
    ensures { (number sessions statements : ℕ) → All (λ step. (all : Bool) → Means workload_table (text_of step) (Reorganize all) → ⊥) (workload_script number sessions statements).lines }
{}
