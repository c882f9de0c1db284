//! The machine: what it keeps, which inputs it accepts, and the one call that takes an input.
ghost use Rattle.std.specs.Prelude.{◌≡◌, ℕ, [], IsTrue, false, ◌&&◌, is_some, IfOk, OnOk, OnErr};
ghost use Rattle.sv_links.specs.StandsFor.{follows, has_opened, may_bring};
ghost use Rattle.sv_out.specs.declared.input.Input.{Input};

use crate::course::Course;
use crate::hand::Hand;
use crate::numbers::Numbers;
use crate::openings::server_of;
use crate::part::{Cause, Followed, Part, Question, fits, part_of};
use crate::place::question_of;
use std::alloc::{AllocError, Global};
use std::mem;
use sv_base::config::{Config, Host};
use sv_base::ids::{LinkId, Run};
use sv_base::moment::Moment;
use sv_base::state::{Mood, Side};
use sv_base::text::Text;
use sv_calls::Calls;
use sv_children::Children;
use sv_events::Ticks;
use sv_links::Links;
use sv_logs::KnownSizes;
use sv_out::input::Input;
use sv_out::order::Order;
use sv_pool::Pools;
use sv_runs::Runs;
use sv_runs::streams::Streams;

/// The daemon's machine.
pub struct Machine {
    /// Where it takes its memory.
    pub(crate) alloc: Global,
    /// The configuration.
    pub(crate) config: Config,
    /// The daemon's own process number.
    pub(crate) pid: u32,
    /// The groups and their children in start order.
    pub(crate) children: Children,
    /// What the daemon is about.
    pub(crate) course: Course,
    /// The numbers that are given out.
    pub(crate) numbers: Numbers,
    /// The clock of the ticks.
    pub(crate) clock: Ticks,
    /// The event pools.
    pub(crate) pools: Pools,
    /// The runs of the processes.
    pub(crate) runs: Runs,
    /// What the runs wrote and isn't decided yet.
    pub(crate) streams: Streams,
    /// The links that are open or have a request in hand.
    pub(crate) links: Links,
    /// Their calls in hand.
    pub(crate) calls: Calls,
    /// The known sizes of files, in bytes.
    pub(crate) sizes: KnownSizes,
    /// The turn in hand.
    pub(crate) hand: Hand,
    /// Whether memory was refused in a step.
    pub(crate) broken: bool,
}

impl Drop for Machine {
    fn drop(self) {
        let Self {
            alloc: _,
            config: _,
            pid: _,
            children: _,
            course: _,
            numbers: _,
            clock: _,
            pools: _,
            runs: _,
            streams: _,
            links: _,
            calls: _,
            sizes: _,
            hand: _,
            broken: _,
        } = self;
    }
}

impl Machine {
    ghost use Rattle.sv_logs.specs.Sizes.{rise};
    ghost use Rattle.sv_core.specs.MachineState.{Model, opening, accepts, next, orders, hand};
    ghost use Rattle.sv_core.specs.MachineState.{is_issued_run, now};
    ghost use Rattle.sv_core.specs.Parts.{part_of};
    ghost use Rattle.sv_core.specs.Openings.{server_of};
    ghost use Rattle.sv_core.specs.StandsFor.{StandsFor, Takes, Notes, GoesOnWith, asked_by};
    ghost use Rattle.sv_core.specs.StandsFor.{has_halted, is_broken, is_fitting, is_sound_part};
    ghost use Rattle.sv_core.specs.Turn.{is_asking};

    /// The machine of this configuration as the daemon begins: each child is stopped and was never started. `sizes` are
    /// the known sizes of files in bytes, by rising names; a log file that isn't among them begins at 0.
    pub fn new(
        alloc: Global,
        config: Config,
        sizes: Vec<(Text, u64)>,
        host: &Host,
    ) -> Result<Machine, AllocError>
        requires { IsTrue (rise sizes.items) }
        ensures { IfOk result (λ x. StandsFor x (opening config sizes.items host.now)) }
    {
        let children = Children::new(alloc, &config)?;
        let pools = Pools::new(alloc, children.roster())?;
        let runs = Runs::new(alloc, children.len())?;
        let sizes = KnownSizes::new(&config, sizes)?;
        let course = Course {
            mood: Mood::Running,
            announced: false,
            left: children.roster().groups().len(),
            is_told: false,
            halted: false,
        };
        Ok(Machine {
            alloc,
            config,
            pid: host.pid,
            children,
            course,
            numbers: Numbers {
                next_run: 1,
                first: 0,
                failures: Vec::new(alloc),
                last: None,
            },
            clock: Ticks::new(host.start),
            pools,
            runs,
            streams: Streams::new(alloc),
            links: Links::new(alloc),
            calls: Calls::new(alloc),
            sizes,
            hand: Hand {
                moment: host.start,
                place: None,
                given: Vec::new(alloc),
            },
            broken: false,
        })
    }

    /// Whether the machine takes this input now: an answer that fits the question that stands, an order that failed while it
    /// can be named, and else a turn. No turn begins with a run that wasn't issued, a link that wasn't opened, an opening
    /// that has another number than the next or no server, or a piece of a link whose last order isn't More. After the
    /// halt, and when it is broken, a machine takes nothing.
    pub fn accepts(&self, input: &Input) -> bool
        ensures accepts { (m : Model) → StandsFor self.now m → result ≡ accepts m input.now }
        ensures fits { result ≡ is_fitting self.now input.now }
        ensures broken { IsTrue (is_broken self.now) → result ≡ false }
    {
        self.is_fitting(input)
    }

    /// Takes one input, which the machine accepts, and answers its orders. Out of memory, the machine is broken from
    /// then on.
    pub fn step(&mut self, alloc: Global, input: Input) -> Result<Vec<Order>, AllocError>
        requires { IsTrue (is_fitting self.old input) }
        ensures next { IfOk result (λ given. (m : Model) → StandsFor self.old m
            → StandsFor self.new (next m input)) }
        ensures orders { IfOk result (λ given. (m : Model) → StandsFor self.old m
            → given.items ≡ orders m input) }
        ensures broken { OnErr result (IsTrue (is_broken self.new)) }
    {
        match self.take(alloc, input) {
            Ok(given) => Ok(given),
            Err(error) => {
                self.broken = true;
                Err(error)
            }
        }
    }

    /// Whether a clock moment may come, at whatever time.
    pub fn accepts_tick(&self) -> bool
        ensures accepts { (m : Model) (at : ℕ) → StandsFor self.now m
            → result ≡ accepts m (Input.Tick at) }
        ensures fits { (at : ℕ) → result ≡ is_fitting self.now (Input.Tick at) }
    {
        self.fits_tick()
    }

    /// Takes a clock moment, which the machine accepts, as `step` does. Its orders stand then in the place of those that are
    /// given. Out of memory, the machine is broken from then on.
    pub fn tick_at(&mut self, at: Moment, given: &mut Vec<Order>) -> Result<(), AllocError>
        requires { IsTrue (is_fitting self.old (Input.Tick at)) }
        ensures next { OnOk result ((m : Model) → StandsFor self.old m
            → StandsFor self.new (next m (Input.Tick at))) }
        ensures orders { OnOk result ((m : Model) → StandsFor self.old m
            → given.new.items ≡ orders m (Input.Tick at)) }
        ensures broken { OnErr result (IsTrue (is_broken self.new)) }
    {
        given.clear();
        match self.take_tick(at, given) {
            Ok(()) => Ok(()),
            Err(error) => {
                self.broken = true;
                Err(error)
            }
        }
    }

    /// Whether a question stands. For a broken machine none does.
    pub fn awaits(&self) -> bool
        ensures awaits { (m : Model) → StandsFor self.now m → result ≡ is_asking (hand m) }
        ensures broken { IsTrue (is_broken self.now) → result ≡ false }
    {
        self.asked_by().is_some()
    }

    /// Whether the halt was given, after which the machine accepts nothing. A broken machine has given none.
    pub fn halted(&self) -> bool
        ensures halted { (m : Model) → StandsFor self.now m → result ≡ (now m).course.halted }
        ensures broken { IsTrue (is_broken self.now) → result ≡ false }
    {
        self.has_halted()
    }

    /// Whether memory was refused in a step, after which the machine accepts nothing.
    pub fn broken(&self) -> bool
        ensures { result ≡ is_broken self.now }
    {
        self.broken
    }

    /// How often a child was looked at so far as time passed, modulo 2^64: each pass looks at those that have woken.
    pub fn looks(&self) -> u64 {
        self.children.looks()
    }

    fn asked_by(&self) -> Option<Question>
        ensures { result ≡ asked_by self.now }
    {
        if self.broken {
            None
        } else {
            question_of(&self.hand.place)
        }
    }

    fn has_halted(&self) -> bool
        ensures { result ≡ has_halted self.now }
    {
        !self.broken && self.course.halted
    }

    fn is_fitting(&self, input: &Input) -> bool
        ensures { result ≡ is_fitting self.now input.now }
    {
        let asked = question_of(&self.hand.place);
        !self.broken
            && !self.course.halted
            && match input {
                Input::Tick { .. }
                | Input::Start { .. }
                | Input::Stop { .. }
                | Input::Signal { .. } => asked.is_none(),
                Input::Exit { run, .. } | Input::Out { run, .. } | Input::OutEnd { run, .. } => {
                    asked.is_none() && self.is_issued(*run)
                }
                Input::Open { link, side, .. } => asked.is_none() && self.may_open(*link, *side),
                Input::Piece { link, .. } => asked.is_none() && self.may_bring(*link),
                Input::LinkEnd { link, .. } => asked.is_none() && self.links.is_issued(*link),
                Input::Failed(number) => self.numbers.can_name(*number),
                answer => fits(asked, answer),
            }
    }

    fn fits_tick(&self) -> bool
        ensures { (at : ℕ) → result ≡ is_fitting self.now (Input.Tick at) }
    {
        !self.broken && !self.course.halted && question_of(&self.hand.place).is_none()
    }

    /// Whether a link is opened by this number at this side.
    fn may_open(&self, link: LinkId, side: Side) -> bool
        ensures { result ≡ (follows self.now.links link
            && is_some (server_of side self.now.config.servers)) }
    {
        self.links.is_next(link) && server_of(side, self.config.servers.as_slice()).is_some()
    }

    /// Whether a piece of a link may come.
    fn may_bring(&self, link: LinkId) -> bool
        ensures { result ≡ (has_opened self.now.links link && may_bring self.now.links link) }
    {
        self.links.is_issued(link) && self.links.takes_piece(link)
    }

    fn is_issued(&self, run: Run) -> bool
        ensures { result ≡ is_issued_run run self.now.numbers.next_run }
    {
        0 < run.0 && u64::from(run.0) < self.numbers.next_run
    }

    fn take(&mut self, alloc: Global, input: Input) -> Result<Vec<Order>, AllocError>
        requires { IsTrue (is_sound_part self.old.links (part_of input)) }
        ensures { IfOk result (λ given. Takes self.old input given.items self.new) }
    {
        self.hear(part_of(input))?;
        self.numbers.note(self.hand.given.as_slice())?;
        Ok(mem::replace(&mut self.hand.given, Vec::new(alloc)))
    }

    fn take_tick(&mut self, at: Moment, given: &mut Vec<Order>) -> Result<(), AllocError>
        requires { given.old.items ≡ [] }
        ensures { OnOk result (Takes self.old (Input.Tick at) given.new.items self.new) }
    {
        self.hear(Part::Begins(at, Cause::Tick))?;
        self.numbers.note(self.hand.given.as_slice())?;
        mem::swap(given, &mut self.hand.given);
        Ok(())
    }

    /// The turn in hand begins, or goes on.
    #[inline(always)]
    fn hear(&mut self, part: Part) -> Result<(), AllocError>
        requires { IsTrue (is_sound_part self.old.links part) }
        ensures whole { self.new.broken ≡ self.old.broken }
        ensures notes { OnOk result (Notes self.old.numbers self.new.numbers part []) }
        ensures turn { OnOk result (GoesOnWith self.old part self.new) }
    {
        match part {
            Part::Begins(at, cause) => {
                self.numbers.forget();
                self.begin(at, cause)
            }
            Part::Answers(reply) => {
                self.numbers.forget();
                self.follow(Followed::Answered(reply))
            }
            Part::Fails(number) => self.fail(number),
        }
    }

    /// The order of this number failed.
    fn fail(&mut self, number: u64) -> Result<(), AllocError>
        ensures whole { self.new.broken ≡ self.old.broken }
        ensures notes { OnOk result
            (Notes self.old.numbers self.new.numbers (Part.Fails number) []) }
        ensures turn { OnOk result (GoesOnWith self.old (Part.Fails number) self.new) }
    {
        self.numbers.last = Some(number);
        match self.numbers.failure(number) {
            Some(failure) => self.follow(Followed::Failed(failure)),
            None => Ok(()),
        }
    }
}
