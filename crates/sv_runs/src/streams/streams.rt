//! The output of runs.
ghost use Rattle.std.specs.Prelude.{◌≡◌, List, [], IfOk, OnOk};
ghost use Rattle.sv_runs.specs.Streams.StreamBook.{StreamRecord, begun, channel_in, fed, last_parts};
ghost use Rattle.sv_runs.specs.Streams.StreamBook.{new_parts, owner_in, pipe_ended};

use crate::streams::open_run::OpenRun;
use crate::streams::owner::Owner;
use std::alloc::{AllocError, Global};
use std::collections::BTreeMap;
use sv_base::ids::Run;
use sv_base::state::Stream;
use sv_pipes::Part;

/// The output of runs, each from its start until both its pipes ended, whatever its process does. Of a captured channel the
/// undecided bytes are kept, of any other none. After out of memory it stands for nothing.
#[derive(Drop)]
pub struct Streams {
    /// By the numbers of their runs.
    pub(crate) open: BTreeMap<u32, OpenRun>,
}

impl Streams {
    ghost use Rattle.sv_runs.specs.Streams.StandsFor.{StandsFor};

    /// Before any run. It takes no memory.
    pub fn new(alloc: Global) -> Streams
        ensures { StandsFor result [] }
    {
        Streams {
            open: BTreeMap::new(alloc),
        }
    }

    /// A run begins, of the child of this place and with this process number. With `redirect` what comes on its standard error counts as its standard output. A
    /// message on a channel has at most so many bytes as its limit says; 0 is no capture.
    pub fn begin(
        &mut self,
        alloc: Global,
        run: Run,
        child: usize,
        pid: u32,
        redirect: bool,
        out_limit: u64,
        err_limit: u64,
    ) -> Result<(), AllocError>
        ensures { OnOk result ((book : List StreamRecord) → StandsFor self.old book
            → StandsFor self.new (begun run child pid redirect out_limit err_limit book)) }
    {
        let owner = Owner { child, pid };
        let open = OpenRun::new(alloc, owner, redirect, out_limit, err_limit)?;
        self.open.insert(run.0, open)?;
        Ok(())
    }

    /// The process of a run of which a pipe is open, whether or not it has ended.
    pub fn owner(&self, run: Run) -> Option<Owner>
        ensures { (book : List StreamRecord) → StandsFor self.now book
            → result ≡ owner_in run book }
    {
        match self.open.get(&run.0) {
            None => None,
            Some(open) => Some(open.owner()),
        }
    }

    /// The channel of a pipe of a run of which a pipe is open: that of standard output also for standard error, where this is
    /// redirected.
    pub fn channel(&self, run: Run, pipe: Stream) -> Option<Stream>
        ensures { (book : List StreamRecord) → StandsFor self.now book
            → result ≡ channel_in run pipe book }
    {
        match self.open.get(&run.0) {
            None => None,
            Some(open) => Some(open.channel(pipe)),
        }
    }

    /// Takes the next bytes of a pipe of a run, and gives the parts that they decide; none where the pipe ended, or where the
    /// run isn't known.
    pub fn feed(
        &mut self,
        alloc: Global,
        run: Run,
        pipe: Stream,
        piece: &[u8],
    ) -> Result<Vec<Part>, AllocError>
        ensures kept { OnOk result ((book : List StreamRecord) → StandsFor self.old book
            → StandsFor self.new (fed run pipe piece.now book)) }
        ensures parts { IfOk result (λ parts. (book : List StreamRecord) → StandsFor self.old book
            → parts.items ≡ new_parts run pipe piece.now book) }
    {
        match self.open.get_mut(&run.0) {
            None => Ok(Vec::new(alloc)),
            Some(open) => {
                let parts = open.feed(alloc, pipe, piece)?;
                Ok(parts)
            }
        }
    }

    /// A pipe of a run ended: gives the parts that the end of its channel decides, where the channel is then at its end. A
    /// second end gives none.
    pub fn end(&mut self, alloc: Global, run: Run, pipe: Stream) -> Result<Vec<Part>, AllocError>
        ensures kept { OnOk result ((book : List StreamRecord) → StandsFor self.old book
            → StandsFor self.new (pipe_ended run pipe book)) }
        ensures parts { IfOk result (λ parts. (book : List StreamRecord) → StandsFor self.old book
            → parts.items ≡ last_parts run pipe book) }
    {
        match self.open.get_mut(&run.0) {
            None => Ok(Vec::new(alloc)),
            Some(open) => {
                let parts = open.end(alloc, pipe)?;
                if open.is_over() {
                    self.open.remove(&run.0);
                    Ok(parts)
                } else {
                    Ok(parts)
                }
            }
        }
    }
}
