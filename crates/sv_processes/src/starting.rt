//! How a program is started.

use crate::chain::{Links, words_before};
use crate::ends::{fault_of, is_own_memory, refused};
use crate::left::Left;
use crate::links::Ground;
use crate::living::Living;
use crate::lookup::{Caller, Look, search};
use crate::pipes::{Pipe, PipeSource};
use crate::rules::{ProgramRules, own_or};
use crate::waiter::{OsWaiter, Outputs};
use std::alloc::{AllocError, Global};
use std::os::fd::OwnedFd;
use std::process::{Child, ChildStdin, Command, Processes};
use std::rt::Files;
use std::sync::{Arc, Wait};
use std::{fs, io};
use sv_base::{Pid, Signal, Text};
use sv_os::WriteSink;
use sv_out::order::SpawnOrder;
use sv_outside::{Refusal, SpawnFault, Started};
use sv_standard::Teller;

/// The variable by which a launcher tells the daemon its number; no program gets it.
const LAUNCHER: &str = "SUPERVISORD_LAUNCHER";

/// A program that was started.
pub(crate) type Program<R> = Started<WriteSink<ChildStdin>, PipeSource, PipeSource, OsWaiter<R>>;

/// What starts programs.
pub(crate) struct Starter<R: Processes + Wait + Drop> {
    pub(crate) rt: R,
    pub(crate) ground: Ground,
    pub(crate) rules: ProgramRules,
    /// Where programs are looked for whose orders say nothing.
    pub(crate) path: Text,
    pub(crate) living: Living,
    pub(crate) left: Left<R::Started>,
    pub(crate) teller: Option<Teller<R>>,
}

impl<R: Processes + Wait + Drop> Drop for Starter<R> {
    fn drop(self) {
        let Self {
            rt: _,
            ground: _,
            rules: _,
            path: _,
            living: _,
            left: _,
            teller: _,
        } = self;
    }
}

/// The daemon's ends of a program's pipes.
#[derive(Drop)]
struct Ends {
    stdin: ChildStdin,
    outputs: Outputs,
    out: PipeSource,
    err: PipeSource,
}

impl<R: Processes + Files + Wait + Copy + Drop> Starter<R> {
    /// Reaps the children that nobody waits for and that have ended.
    pub(crate) fn reap(&self) {
        self.left.reap(&self.rt);
    }

    /// Reaps the children that nobody waits for, after a signal was sent; after KILL with some time for their ends.
    pub(crate) fn reap_after(&self, signal: Signal) {
        if signal == Signal::Kill {
            self.left.reap_soon(&self.rt);
        } else {
            self.reap();
        }
    }

    /// Starts the program of an order. Why it is refused is told on standard error too, where that names what is missing.
    pub(crate) fn start(
        &self,
        alloc: Global,
        order: &SpawnOrder,
    ) -> Result<Program<R>, SpawnFault> {
        let directory = own_or(&order.directory, &self.rules.directory);
        if !directory.is_empty() && !is_directory(&self.rt, directory) {
            return Err(refused(format!(in alloc; "can't change to directory {directory}")?));
        }
        let links = self.ground.links(
            &self.rt,
            alloc,
            own_or(&order.user, &self.rules.user),
            own_or(&order.umask, &self.rules.umask),
        )?;
        self.check(alloc, order, directory, &links)?;
        let mut command = self.command(alloc, order, directory, &links)?;
        self.run(alloc, order, &mut command)
    }

    /// Refuses a program that can't be executed, and tells which it is.
    fn check(
        &self,
        alloc: Global,
        order: &SpawnOrder,
        directory: &str,
        links: &Links,
    ) -> Result<(), SpawnFault> {
        let [word, ..] = order.words.as_slice() else {
            return Err(SpawnFault::Refused(Refusal::NoFile));
        };
        let caller = match links.user {
            Some(_) => Caller::Other,
            None => Caller::Itself(&self.ground.state),
        };
        let path = self.path_of(order);
        let seen = search(&self.rt, alloc, word.as_str(), directory, path, caller)?;
        let Some((refusal, reason)) = judged(alloc, word.as_str(), &seen)? else {
            return Ok(());
        };
        self.tell(alloc, order, reason.as_str())?;
        Err(SpawnFault::Refused(refusal))
    }

    fn tell(&self, alloc: Global, order: &SpawnOrder, reason: &str) -> Result<(), AllocError> {
        if let Some(teller) = &self.teller {
            let (group, name) = (order.group.as_str(), order.name.as_str());
            let line = format!(in alloc; "{group}:{name}: {reason}")?;
            teller.tell(alloc, line.as_str());
        }
        Ok(())
    }

    /// Where the program is looked for: its own `PATH`, else the daemon's.
    fn path_of<'a>(&'a self, order: &'a SpawnOrder) -> &'a str {
        variable(order.environment.as_slice(), "PATH").unwrap_or(self.path.as_str())
    }

    /// The command of an order, with its directory and its variables.
    fn command(
        &self,
        alloc: Global,
        order: &SpawnOrder,
        directory: &str,
        links: &Links,
    ) -> Result<Command, SpawnFault> {
        let before = words_before(alloc, links)?;
        let mut command = command_of(alloc, before.as_slice(), order.words.as_slice())?;
        command.env_remove(LAUNCHER)?;
        set_variables(&mut command, order.environment.as_slice())?;
        if !directory.is_empty() {
            command.current_dir(directory)?;
        }
        Ok(command)
    }

    /// Runs a command over new pipes.
    fn run(
        &self,
        alloc: Global,
        order: &SpawnOrder,
        command: &mut Command,
    ) -> Result<Program<R>, SpawnFault> {
        let joined = self.rules.joins(&order.group, &order.name);
        let ends = match wired(&self.rt, alloc, command, joined) {
            Ok(ends) => ends,
            Err(error) => return Err(fault_of(alloc, &error)?),
        };
        let (living, left) = (self.living.another()?, self.left.another()?);
        match command.spawn(&self.rt) {
            Ok(child) => self.parted(child, ends, living, left),
            Err(error) => Err(fault_of(alloc, &error)?),
        }
    }

    /// The parts of a program that was started.
    fn parted(
        &self,
        child: Child<R::Started>,
        ends: Ends,
        living: Living,
        left: Left<R::Started>,
    ) -> Result<Program<R>, SpawnFault> {
        let number = child.id();
        let Ends {
            stdin,
            outputs,
            out,
            err,
        } = ends;
        let waiter = OsWaiter::new(self.rt, child, outputs, living, left);
        self.living.add(&self.rt, number)?;
        match Pid::new(number) {
            Some(pid) => Ok(Started {
                pid,
                stdin: WriteSink::new(stdin),
                stdout: out,
                stderr: err,
                waiter,
            }),
            None => Err(SpawnFault::Refused(Refusal::Refused(Text::fixed("no process")))),
        }
    }
}

/// Why a command with this first word is refused, and the reason as it is told.
fn judged(alloc: Global, word: &str, seen: &Look) -> Result<Option<(Refusal, String)>, AllocError> {
    match seen {
        Look::Program => Ok(None),
        Look::Missing => Ok(Some((
            Refusal::NoFile,
            format!(in alloc; "can't find command '{word}'")?,
        ))),
        Look::Directory(path) => Ok(Some((
            Refusal::NotExecutable,
            format!(in alloc; "command at '{path}' is a directory")?,
        ))),
        Look::Closed(path) => Ok(Some((
            Refusal::NotExecutable,
            format!(in alloc; "command at '{path}' is not executable; chmod +x it")?,
        ))),
        Look::PlainText(path) => Ok(Some((
            Refusal::NotExecutable,
            format!(in alloc;
                "command at '{path}' is a text whose first line doesn't begin with #!"
            )?,
        ))),
    }
}

/// The value of a variable among these; the last of its name counts.
fn variable<'a>(variables: &'a [(Text, Text)], wanted: &str) -> Option<&'a str> {
    let mut found = None;
    for (name, value) in variables {
        if name.as_str() == wanted {
            found = Some(value.as_str());
        }
    }
    found
}

/// A command of these words.
fn command_of(alloc: Global, before: &[Text], own: &[Text]) -> Result<Command, SpawnFault> {
    let mut words = before.iter().chain(own.iter());
    let Some(first) = words.next() else {
        return Err(SpawnFault::Refused(Refusal::NoFile));
    };
    let mut command = Command::new(alloc, first.as_str())?;
    for word in words {
        command.arg(word.as_str())?;
    }
    Ok(command)
}

fn set_variables(command: &mut Command, variables: &[(Text, Text)]) -> Result<(), AllocError> {
    for (name, value) in variables {
        command.env(name.as_str(), value.as_str())?;
    }
    Ok(())
}

fn is_directory<R: Files>(rt: &R, path: &str) -> bool {
    match fs::metadata(rt, path) {
        Ok(found) => found.is_dir(),
        Err(_) => false,
    }
}

/// Makes the pipes of a command: one for both outputs where they are joined, so that what is written to them stays in its
/// order.
fn wired<R: Files>(rt: &R, alloc: Global, command: &mut Command, joined: bool) -> io::Result<Ends> {
    let (their_in, our_in) = io::pipe(rt)?;
    let (our_out, their_out) = io::pipe(rt)?;
    let out = Pipe::new(alloc, our_out)?;
    let err = if joined {
        command.stderr(their_out.try_clone()?);
        None
    } else {
        let (our_err, their_err) = io::pipe(rt)?;
        command.stderr(their_err);
        Some(Pipe::new(alloc, our_err)?)
    };
    command.stdin(their_in).stdout(their_out);
    Ok(Ends {
        stdin: ChildStdin::from(OwnedFd::from(our_in)),
        out: PipeSource::new(Some(Arc::try_clone(&out)?)),
        err: PipeSource::new(another(&err)?),
        outputs: Outputs { out, err },
    })
}

fn another(pipe: &Option<Arc<Pipe>>) -> Result<Option<Arc<Pipe>>, AllocError> {
    match pipe {
        Some(pipe) => Ok(Some(Arc::try_clone(pipe)?)),
        None => Ok(None),
    }
}
