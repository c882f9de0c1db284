//! The generator.
ghost use Rattle.std.specs.Prelude.{◌≡◌, ◌≤◌, ◌<◌, ◌+◌, ◌*◌, ◌/◌, ◌^◌, ℕ, Some, None};
ghost use Rattle.sv_generated.specs.Generator.{draw_of, next_state};

use crate::draw::Draw;
use sv_base::ids::Run;
use sv_base::moment::Moment;

/// The most inputs of a run.
pub const DRAW_LIMIT: u64 = 1_000_000;

/// The programs of a run.
pub const PROGRAMS: u64 = 200;

/// A run of so many inputs, of which some were drawn.
#[derive(Drop)]
pub struct Generated {
    /// How many inputs it has.
    number: u64,
    /// How many were drawn.
    drawn: u64,
    /// The state of the generator.
    state: u64,
    ghost few: { number ≤ 1000000 },
    ghost some: { drawn ≤ number },
    ghost short: { state < 2 ^ 31 },
}

/// The next state of the generator.
fn next_state(state: u64) -> u64
    requires { state < 2 ^ 31 }
    ensures value { result ≡ next_state state }
    ensures short { result < 2 ^ 31 }
{
    (state * 1_103_515_245 + 12_345) % 2_147_483_648
}

/// The input at this moment that a part of the generator's state gives, where so many runs were issued.
fn draw_of(at: Moment, part: u64, issued: u64) -> Draw
    requires { issued ≤ 4294967295 }
    ensures { result ≡ draw_of at part issued }
{
    let rest = part / 4;
    match part % 4 {
        1 if 0 < issued => Draw::Exit(at, Run((1 + rest % issued) as u32)),
        2 => Draw::Stop(at, (rest % PROGRAMS) as u32),
        3 => Draw::Start(at, (rest % PROGRAMS) as u32),
        _ => Draw::Tick(at),
    }
}

impl Generated {
    ghost use Rattle.sv_generated.specs.Drawn.{HasDrawn, nth_draw};

    /// The run of so many inputs, of which none was drawn.
    pub(crate) fn begin(number: u64) -> Generated
        requires { number ≤ 1000000 }
        ensures { HasDrawn result number 0 }
    {
        Generated {
            number,
            drawn: 0,
            state: number,
        }
    }

    /// The next input, where so many runs were issued; `None` exactly once all were drawn. It takes no memory.
    pub fn draw(&mut self, issued: u64) -> Option<Draw>
        requires { issued ≤ 4294967295 }
        ensures next { (number draws : ℕ) → HasDrawn self.old number draws → draws < number
            → (result ≡ Some (nth_draw number draws issued))
            × HasDrawn self.new number (draws + 1) }
        ensures end { (number draws : ℕ) → HasDrawn self.old number draws → number ≤ draws
            → (result ≡ None) × HasDrawn self.new number draws }
    {
        if self.drawn >= self.number {
            return None;
        }
        let at = Moment::new(100 * self.drawn)?;
        self.state = next_state(self.state);
        self.drawn += 1;
        Some(draw_of(at, self.state / 65_536, issued))
    }
}
