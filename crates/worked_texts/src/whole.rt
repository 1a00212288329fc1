// The whole call, as it is tested here.
use pc_app::{Status, run};
use pc_outside::{MemorySink, MemorySource, Sink};
use reach::Steps;
use run_outcomes::{Call, Runs};
use std::alloc::Global;
use std::sync::ledger::Ledger;

/// The whole call.
#[derive(Clone, Copy)]
pub struct Whole;

impl Call for Whole {
    fn run<O: Sink, L: Ledger>(
        &self,
        alloc: Global,
        words: &[String],
        source: &mut MemorySource,
        out: &mut O,
        err: &mut MemorySink,
        steps: &mut Steps<L>,
    ) -> Status {
        run(alloc, words, source, out, err, steps)
    }
}

/// Its runs, with this memory.
pub fn runs(alloc: Global) -> Runs<Whole> {
    Runs { alloc, call: Whole }
}
