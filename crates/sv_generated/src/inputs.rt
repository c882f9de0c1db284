//! The inputs of a run.
ghost use Rattle.std.specs.Prelude.{◌≡◌, ◌≤◌, ◌+◌, ◌%◌, IfOk};
ghost use Rattle.sv_generated.specs.Generated.{input_of, process_of, program_name};

use crate::Draw;
use std::alloc::{AllocError, Global};
use sv_base::number::Pid;
use sv_base::state::How;
use sv_base::text::Text;
use sv_out::input::Input;

/// The name of a program: p and three digits.
pub fn program_name(alloc: Global, number: u32) -> Result<Text, AllocError>
    ensures { IfOk result (λ name. name ≡ program_name number) }
{
    let mut name = String::from_str(alloc, "p")?;
    name.push(digit(number / 100))?;
    name.push(digit(number / 10))?;
    name.push(digit(number))?;
    Ok(Text::from_string(name))
}

/// The last digit of a number.
fn digit(number: u32) -> char
    ensures { result ≡ 48 + number % 10 }
{
    char::from(b'0' + (number % 10) as u8)
}

/// The input that was drawn.
pub(crate) fn input_of(alloc: Global, draw: Draw) -> Result<Input, AllocError>
    ensures { IfOk result (λ input. input ≡ input_of draw) }
{
    match draw {
        Draw::Tick(at) => Ok(Input::Tick { at }),
        Draw::Exit(at, run) => Ok(Input::Exit {
            at,
            run,
            how: How::Code(1),
        }),
        Draw::Stop(at, program) => Ok(Input::Stop {
            at,
            name: program_name(alloc, program)?,
        }),
        Draw::Start(at, program) => Ok(Input::Start {
            at,
            name: program_name(alloc, program)?,
        }),
    }
}

/// The answer to the latest of these spawns.
pub(crate) fn answer_to(spawned: u64) -> Input
    requires { spawned ≤ 4294967195 }
    ensures { result ≡ Input.Pid (process_of spawned) }
{
    Input::Pid(Pid::new(100 + spawned as u32).unwrap())
}
