//! The runs of processes.
ghost use Rattle.std.specs.Prelude.{◌≡◌, IfOk, OnOk, slice_set};
ghost use Rattle.sv_runs.specs.RunBook.{RunBook, begun, heard, is_ready, living, lost, new_tokens};
ghost use Rattle.sv_runs.specs.RunBook.{opening, pid_in, pipe_ended, process_ended, sent};
ghost use Rattle.sv_runs.specs.RunBook.{stdin_lost, teller};

use crate::open_run::OpenRun;
use std::alloc::{AllocError, Global};
use std::collections::BTreeMap;
use sv_base::ids::Run;
use sv_base::state::Stream;
use sv_pipes::Token;

/// The runs of processes, each from its start until its process and both its pipes ended, and of each child whether the
/// stdin of its present run is closed. After out of memory it stands for nothing.
#[derive(Drop)]
pub struct Runs {
    /// By their numbers.
    pub(crate) runs: BTreeMap<u32, OpenRun>,
    pub(crate) closed: Vec<bool>,
}

impl Runs {
    ghost use Rattle.sv_runs.specs.StandsFor.{StandsFor};

    /// Before any run, of so many children.
    pub fn new(alloc: Global, children: usize) -> Result<Runs, AllocError>
        ensures { IfOk result (λ x. StandsFor x (opening children)) }
    {
        let closed = vec![in alloc; false; children]?;
        Ok(Runs {
            runs: BTreeMap::new(alloc),
            closed,
        })
    }

    /// A run begins, of the child of this place and with this process number; the child's stdin is open again.
    pub fn begin(
        &mut self,
        alloc: Global,
        run: Run,
        child: usize,
        pid: u32,
        is_listener: bool,
    ) -> Result<(), AllocError>
        ensures { OnOk result ((b : RunBook) → StandsFor self.old b
            → StandsFor self.new (begun run child pid is_listener b)) }
    {
        let open = OpenRun::new(alloc, child, pid, is_listener);
        self.runs.insert(run.0, open)?;
        self.mark(child, false);
        Ok(())
    }

    /// The child of a run whose process hasn't ended.
    pub fn living(&self, run: Run) -> Option<usize>
        ensures { (b : RunBook) → StandsFor self.now b → result ≡ living run b }
    {
        match self.runs.get(&run.0) {
            None => None,
            Some(open) => open.living(),
        }
    }

    /// The process number of a run that isn't over: its process or one of its pipes hasn't ended.
    pub fn pid(&self, run: Run) -> Option<u32>
        ensures { (b : RunBook) → StandsFor self.now b → result ≡ pid_in run b }
    {
        match self.runs.get(&run.0) {
            None => None,
            Some(open) => Some(open.pid()),
        }
    }

    /// The child of a run that is talking: it is a listener whose process and stdout haven't ended, and no write to it
    /// failed while it held an event.
    pub fn teller(&self, run: Run) -> Option<usize>
        ensures { (b : RunBook) → StandsFor self.now b → result ≡ teller run b }
    {
        match self.runs.get(&run.0) {
            None => None,
            Some(open) => open.teller(),
        }
    }

    /// Whether a run is a listener that waits for an event: its process hasn't ended, and no write to it failed while it held
    /// one.
    pub fn is_ready(&self, run: Run) -> bool
        ensures { (b : RunBook) → StandsFor self.now b → result ≡ is_ready run b }
    {
        match self.runs.get(&run.0) {
            None => false,
            Some(open) => open.is_ready(),
        }
    }

    /// An event was sent to a run, which is marked where the run waits for one.
    pub fn sent(&mut self, run: Run)
        ensures { (b : RunBook) → StandsFor self.old b → StandsFor self.new (sent run b) }
    {
        if let Some(open) = self.runs.get_mut(&run.0) {
            open.sent();
        }
    }

    /// Takes the next bytes of a run's standard output, and gives the tokens that they end; none where it isn't talking.
    pub fn hear(&mut self, alloc: Global, run: Run, piece: &[u8]) -> Result<Vec<Token>, AllocError>
        ensures kept { OnOk result ((b : RunBook) → StandsFor self.old b
            → StandsFor self.new (heard run piece.now b)) }
        ensures tokens { IfOk result (λ told. (b : RunBook) → StandsFor self.old b
            → told.items ≡ new_tokens run piece.now b) }
    {
        match self.runs.get_mut(&run.0) {
            None => Ok(Vec::new(alloc)),
            Some(open) => {
                let tokens = open.hear(alloc, piece)?;
                Ok(tokens)
            }
        }
    }

    /// A pipe of a run ended.
    pub fn end_pipe(&mut self, run: Run, stream: Stream)
        ensures { (b : RunBook) → StandsFor self.old b
            → StandsFor self.new (pipe_ended run stream b) }
    {
        if let Some(open) = self.runs.get_mut(&run.0) {
            open.end_pipe(stream);
            if open.is_over() {
                self.runs.remove(&run.0);
            }
        }
    }

    /// The process of a run ended.
    pub fn end_process(&mut self, run: Run)
        ensures { (b : RunBook) → StandsFor self.old b → StandsFor self.new (process_ended run b) }
    {
        if let Some(open) = self.runs.get_mut(&run.0) {
            open.end_process();
            if open.is_over() {
                self.runs.remove(&run.0);
            }
        }
    }

    /// A write to a run failed: the stdin of its child is closed, where its process hasn't ended.
    pub fn lose_stdin(&mut self, run: Run)
        ensures { (b : RunBook) → StandsFor self.old b → StandsFor self.new (stdin_lost run b) }
    {
        if let Some(child) = self.living(run) {
            self.mark(child, true);
        }
    }

    /// A write to a run failed while it held an event: from then on it counts as UNKNOWN.
    pub fn lose(&mut self, run: Run)
        ensures { (b : RunBook) → StandsFor self.old b → StandsFor self.new (lost run b) }
    {
        if let Some(open) = self.runs.get_mut(&run.0) {
            open.lose();
        }
    }

    /// Of each child, whether the stdin of its present run was closed by a failed write.
    pub fn closed(&self) -> &[bool]
        ensures { (b : RunBook) → StandsFor self.now b → result.now ≡ b.closed }
    {
        self.closed.as_slice()
    }

    /// Says of a child whether its stdin is closed.
    fn mark(&mut self, child: usize, is_closed: bool)
        ensures runs { self.new.runs ≡ self.old.runs }
        ensures closed { self.new.closed.items ≡ slice_set self.old.closed.items child is_closed }
    {
        if let Some(closed) = self.closed.get_mut(child) {
            *closed = is_closed;
        }
    }
}
