//! The codes of a column that a part of a predicate takes.

ghost use Rattle.std.specs.Prelude.{◌≡◌, ◌+◌, ◌≤◌, ◌<◌, ℕ, length};
ghost use Rattle.column_segment.specs.Bodies.{code_in};
ghost use Rattle.batch_kernels.specs.Masks.{IsNarrowed, IsNarrowedAt};
ghost use Rattle.batch_filter.specs.Codes.{takes, Answers};

use batch_kernels::{Span, has_any, keep_none, narrow_in_span, narrow_in_table};
use column_segment::Segment;
use cs_base::Items;

/// Some codes of a column.
#[derive(Debug, Drop)]
pub enum Choice {
    /// A range of codes, or the codes outside of one.
    Span(Span),
    /// A bool for each code.
    Table(Items<bool>),
}

/// So many cells of one code have one verdict. Of fewer the codes are read.
const LONG_RUN: usize = 64;

impl Choice {
    /// Whether a code is chosen. Past the end of a table it is not.
    fn takes(&self, code: u64) -> bool
        ensures { result ≡ takes self.now code }
    {
        match self {
            Choice::Span(span) => span.has(code),
            Choice::Table(table) => match table.get(code as usize) {
                Some(taken) => *taken,
                None => false,
            },
        }
    }

    /// Keeps of the mask's places those whose codes are chosen.
    pub fn narrow(&self, segment: &Segment, mask: &mut [bool])
        requires same { length mask.old ≡ segment.now.length }
        requires answers { Answers self.now segment.now.body segment.now.length }
        ensures { IsNarrowed (λ i. takes self.now (code_in segment.now.body i)) mask.old mask.new }
    {
        let mut codes = [0; 1024];
        let mut from = 0;
        while from < mask.len() {
            from += self.narrow_next(segment, from, &mut codes, mask);
        }
    }

    /// The same for the next places from one on, and how many they are: those of a long run by one verdict, or at most a batch.
    fn narrow_next(
        &self,
        segment: &Segment,
        from: usize,
        codes: &mut [u64; 1024],
        mask: &mut [bool],
    ) -> usize
        requires there { from < length mask.old }
        requires same { length mask.old ≡ segment.now.length }
        requires answers { Answers self.now segment.now.body segment.now.length }
        ensures some { 0 < result }
        ensures within { from + result ≤ length mask.old }
        ensures narrowed { IsNarrowedAt from result (λ i. takes self.now (code_in segment.now.body (from + i))) mask.old mask.new }
    {
        let (code, end) = segment.stretch(from);
        let run = end - from;
        if run >= LONG_RUN {
            self.narrow_run(code, from, run, mask);
            return run;
        }
        let count = (mask.len() - from).min(1024);
        self.narrow_batch(segment, from, count, codes, mask);
        count
    }

    /// Of the `count` places from one on, which have one code, keeps all or none.
    fn narrow_run(&self, code: u64, from: usize, count: usize, mask: &mut [bool])
        requires { from + count ≤ length mask.old }
        ensures { IsNarrowedAt from count (λ _. takes self.now code) mask.old mask.new }
    {
        if self.takes(code) {
            return;
        }
        keep_none(from, count, mask);
    }

    /// The same for `count` places from one on, whose codes are read unless none of them is chosen.
    fn narrow_batch(
        &self,
        segment: &Segment,
        from: usize,
        count: usize,
        codes: &mut [u64; 1024],
        mask: &mut [bool],
    )
        requires room { count ≤ 1024 }
        requires within { from + count ≤ length mask.old }
        requires same { length mask.old ≡ segment.now.length }
        requires answers { Answers self.now segment.now.body segment.now.length }
        ensures { IsNarrowedAt from count (λ i. takes self.now (code_in segment.now.body (from + i))) mask.old mask.new }
    {
        if !has_any(&mask[from..from + count], true) {
            return;
        }
        segment.code_batch(from, count, codes);
        match self {
            Choice::Span(span) => narrow_in_span(codes, count, *span, from, mask),
            Choice::Table(table) => narrow_in_table(codes, count, table.as_slice(), from, mask),
        }
    }
}
