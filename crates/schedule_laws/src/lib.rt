//! That a script, run line by line, leaves one log where memory is not wanting, and so the load of a workload writes one text.
//!
//! Its contracts are laws, of functions that do nothing. `one_script_leaves_one_log`: two runs of a script have the same
//! entries, but for the lines of reports on segments. `load_writes_one_text`: the summary of a workload's run that has five lines is a
//! function of the workload and the sizes of row groups. They stand on `script_runner` for what a run of a script is, on `book_orders`
//! for books that differ in the order of packed versions, and on `workload_laws` for workloads as scripts.
#![tactic(auto)]

ghost use Rattle.std.specs.Prelude.{◌≡◌, ◌≤◌, ℕ, List};
ghost use Rattle.std.specs.List.{AllZip};
ghost use Rattle.cs_model.specs.declared.entry.Entry.{Entry};
ghost use Rattle.cs_model.specs.State.{State};
ghost use Rattle.cs_model.specs.Steps.{Legal};
ghost use Rattle.group_book.specs.Commits.{Sizes};
ghost use Rattle.group_log.specs.Followed.{Ground};
ghost use Rattle.group_log.specs.Grounds.{IsGround};
ghost use Rattle.log_summary.specs.Summary.{summary};
ghost use Rattle.script_reader.specs.declared.script.Script.{Script};
ghost use Rattle.script_reader.specs.declared.script.Mode.{Mode};
ghost use Rattle.script_reader.specs.Scripts.{IsScript};
ghost use Rattle.script_workload.specs.Workload.{workload};
ghost use Rattle.script_runner.specs.Logs.{Summed};
ghost use Rattle.schedule_laws.specs.Agreeing.{Agrees, HasFiveLines, IsAmpleLogOf};

/// Two whole logs of one script, run line by line, in neither of which memory was wanting, are the same entries but for the lines of
/// reports on segments: the works of a REORGANIZE and what it left, reports on groups and counts of segments are the same. So both lead
/// to one state, and their summaries are one text.
pub fn one_script_leaves_one_log()
    ensures entries { (origin : Ground) (script : Script) (log other : List Entry) → IsGround origin
        → IsAmpleLogOf origin script log → IsAmpleLogOf origin script other → AllZip Agrees log other }
    ensures state { (origin : Ground) (script : Script) (log other : List Entry) (m n : State) → IsGround origin
        → IsAmpleLogOf origin script log → IsAmpleLogOf origin script other → Legal origin.begin log m → Legal origin.begin other n → m ≡ n }
    ensures summary { (origin : Ground) (script : Script) (log other : List Entry) (rows : ℕ) → IsGround origin
        → IsAmpleLogOf origin script log → IsAmpleLogOf origin script other → summary log rows ≡ summary other rows }
{}

/// A text is one script at most.
pub fn one_text_is_one_script()
    ensures { (mode : Mode) (bytes : List ℕ) (script other : Script) → IsScript mode bytes script → IsScript mode bytes other → script ≡ other }
{}

/// What the load of a workload writes is a function of its words where it has no line for want of memory: two summaries of runs of one
/// workload, with row groups of one size, that have five lines each, are one text.
pub fn load_writes_one_text()
    ensures { (number sessions statements : ℕ) (sizes : Sizes) (whole other : List ℕ) → 1 ≤ sessions → sessions ≤ 64 → 1 ≤ sizes.group_rows → 1 ≤ sizes.direct_rows
        → Summed sizes (workload number sessions statements) whole → HasFiveLines whole → Summed sizes (workload number sessions statements) other → HasFiveLines other → whole ≡ other }
{}
