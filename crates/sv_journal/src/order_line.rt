//! Reading an order line, part by part.
ghost use Rattle.std.specs.Prelude.{◌≡◌, ◌≤◌};
ghost use Rattle.sv_journal.specs.Reading.{Gives, GivesAlways};
ghost use Rattle.sv_journal.specs.OrderReading.{text_at, pair_at, items_at, counted_at};
ghost use Rattle.sv_journal.specs.OrderReading.{text_numbers_at, number_bytes_at, last_text_at};
ghost use Rattle.sv_journal.specs.OrderReading.{text_bytes_at, two_texts_at, last_number_at};
ghost use Rattle.sv_journal.specs.OrderReading.{edge_at, state_at, kill_at, command_at, place_at};
ghost use Rattle.sv_journal.specs.OrderReading.{spawn_at, order_of, order_at};

use crate::number::number;
use crate::order_words::{ORDER_WORDS, OrderWord, RECEIVERS, STATES};
use crate::stop::Stop;
use crate::token::{bytes_of_line, rest_of_line, token};
use crate::word::{end, keyword, word};
use crate::words::SIGNALS;
use std::alloc::Global;
use sv_base::bytes::Bytes;
use sv_base::ids::{LinkId, Run};
use sv_base::items::Items;
use sv_base::text::Text;
use sv_letters::{BadByte, Letters};
use sv_out::order::{Order, SpawnOrder};

/// The words of a spawn's line before its command.
struct Names {
    group: Text,
    name: Text,
    directory: Text,
    umask: Text,
    user: Text,
}

/// Reads an order line as the grammar has it, however long it is.
#[tactic(auto, unfolding(crate::specs::OrderReading::order_at))]
pub fn order(alloc: Global, bytes: &[u8]) -> Result<Order, Stop>
    ensures { Gives (λ x. x) result (order_at bytes.now) }
{
    let (word, rest) = keyword(&ORDER_WORDS, bytes)?;
    order_of(alloc, word, rest)
}

#[tactic(auto, unfolding(crate::specs::OrderReading::order_of))]
fn order_of(alloc: Global, word: OrderWord, bytes: &[u8]) -> Result<Order, Stop>
    ensures { Gives (λ x. x) result (order_of word bytes.now) }
{
    match word {
        OrderWord::State => state(alloc, bytes),
        OrderWord::Dropped => {
            let (pool, serial, poolserial) = text_and_numbers(alloc, bytes)?;
            Ok(Order::Dropped {
                pool,
                serial,
                poolserial,
            })
        }
        OrderWord::Spawn => spawn(alloc, bytes),
        OrderWord::Kill => Ok(kill(bytes)?),
        OrderWord::Stdin => {
            let (run, bytes) = number_and_bytes(alloc, bytes)?;
            Ok(Order::Stdin {
                run: Run(run),
                bytes,
            })
        }
        OrderWord::Append => {
            let (file, bytes) = text_and_bytes(alloc, bytes)?;
            Ok(Order::Append { file, bytes })
        }
        OrderWord::Shift => {
            let (from, to) = two_texts(alloc, bytes)?;
            Ok(Order::Shift { from, to })
        }
        OrderWord::Fresh => {
            let file = last_text(alloc, bytes)?;
            Ok(Order::Fresh { file })
        }
        OrderWord::Read => {
            let (file, start, length) = text_and_numbers(alloc, bytes)?;
            Ok(Order::ReadFile {
                file,
                start,
                length,
            })
        }
        OrderWord::Clear => {
            let file = last_text(alloc, bytes)?;
            Ok(Order::ClearFile { file })
        }
        OrderWord::Names => {
            let pattern = last_text(alloc, bytes)?;
            Ok(Order::Names { pattern })
        }
        OrderWord::Size => {
            let file = last_text(alloc, bytes)?;
            Ok(Order::Size { file })
        }
        OrderWord::Send => {
            let (link, bytes) = number_and_bytes(alloc, bytes)?;
            Ok(Order::Send {
                link: LinkId(link),
                bytes,
            })
        }
        OrderWord::More => {
            let link = last_number(bytes)?;
            Ok(Order::More { link: LinkId(link) })
        }
        OrderWord::Close => {
            let link = last_number(bytes)?;
            Ok(Order::Close { link: LinkId(link) })
        }
        OrderWord::Halt => Ok(end(Order::Halt, bytes)?),
    }
}

/// Reads a text after a space.
fn text(alloc: Global, bytes: &[u8]) -> Result<(Text, &[u8]), Stop>
    ensures { Gives (λ x. (x.0, x.1.now)) result (text_at bytes.now) }
{
    let rest = word(b" ", bytes)?;
    token(alloc, Letters::OfText, rest)
}

/// Reads a text after a space, which ends the line.
#[tactic(auto, unfolding(crate::specs::OrderReading::last_text_at))]
fn last_text(alloc: Global, bytes: &[u8]) -> Result<Text, Stop>
    ensures { Gives (λ x. x) result (last_text_at bytes.now) }
{
    let rest = word(b" ", bytes)?;
    rest_of_line(alloc, rest)
}

/// Reads two texts, which end the line.
#[tactic(auto, unfolding(crate::specs::OrderReading::two_texts_at))]
fn two_texts(alloc: Global, bytes: &[u8]) -> Result<(Text, Text), Stop>
    ensures { Gives (λ x. x) result (two_texts_at bytes.now) }
{
    match text(alloc, bytes) {
        Ok((one, rest)) => {
            let other = last_text(alloc, rest)?;
            Ok((one, other))
        }
        Err(stop) => Err(stop),
    }
}

/// Reads a text, and bytes after a space, which end the line.
#[tactic(auto, unfolding(crate::specs::OrderReading::text_bytes_at))]
fn text_and_bytes(alloc: Global, bytes: &[u8]) -> Result<(Text, Bytes), Stop>
    ensures { Gives (λ x. x) result (text_bytes_at bytes.now) }
{
    match text(alloc, bytes) {
        Ok((text, rest)) => {
            let rest = word(b" ", rest)?;
            let bytes = bytes_of_line(alloc, rest)?;
            Ok((text, bytes))
        }
        Err(stop) => Err(stop),
    }
}

/// Reads a run or a link, and bytes after a space, which end the line.
#[tactic(auto, unfolding(crate::specs::OrderReading::number_bytes_at))]
fn number_and_bytes(alloc: Global, bytes: &[u8]) -> Result<(u32, Bytes), Stop>
    ensures { Gives (λ x. x) result (number_bytes_at bytes.now) }
{
    let (number, rest) = number(0, u64::from(u32::MAX), bytes)?;
    let rest = word(b" ", rest)?;
    let bytes = bytes_of_line(alloc, rest)?;
    Ok((number as u32, bytes))
}

/// Reads a run or a link, which ends the line.
#[tactic(auto, unfolding(crate::specs::OrderReading::last_number_at))]
fn last_number(bytes: &[u8]) -> Result<u32, BadByte>
    ensures { GivesAlways (λ x. x) result (last_number_at bytes.now) }
{
    let (number, rest) = number(0, u64::from(u32::MAX), bytes)?;
    end(number as u32, rest)
}

/// Reads a text and two numbers, which end the line.
#[tactic(auto, unfolding(crate::specs::OrderReading::text_numbers_at))]
fn text_and_numbers(alloc: Global, bytes: &[u8]) -> Result<(Text, u64, u64), Stop>
    ensures { Gives (λ x. (x.0, x.1, x.2)) result (text_numbers_at bytes.now) }
{
    match text(alloc, bytes) {
        Ok((text, rest)) => {
            let rest = word(b" ", rest)?;
            let (first, rest) = number(0, u64::MAX, rest)?;
            let rest = word(b" ", rest)?;
            let (second, rest) = number(0, u64::MAX, rest)?;
            Ok(end((text, first, second), rest)?)
        }
        Err(stop) => Err(stop),
    }
}

/// Reads the report of an edge.
#[tactic(auto, unfolding(crate::specs::OrderReading::state_at))]
fn state(alloc: Global, bytes: &[u8]) -> Result<Order, Stop>
    ensures { Gives (λ x. x) result (state_at bytes.now) }
{
    match text(alloc, bytes) {
        Ok((group, rest)) => match text(alloc, rest) {
            Ok((name, rest)) => Ok(edge(group, name, rest)?),
            Err(stop) => Err(stop),
        },
        Err(stop) => Err(stop),
    }
}

/// Reads the two states of an edge.
#[tactic(auto, unfolding(crate::specs::OrderReading::edge_at))]
fn edge(group: Text, name: Text, bytes: &[u8]) -> Result<Order, BadByte>
    ensures { GivesAlways (λ x. x) result (edge_at group name bytes.now) }
{
    let rest = word(b" ", bytes)?;
    let (from, rest) = keyword(&STATES, rest)?;
    let rest = word(b" ", rest)?;
    let (to, rest) = keyword(&STATES, rest)?;
    end(
        Order::State {
            group,
            name,
            from,
            to,
        },
        rest,
    )
}

/// Reads a signal, and who is sent it.
#[tactic(auto, unfolding(crate::specs::OrderReading::kill_at))]
fn kill(bytes: &[u8]) -> Result<Order, BadByte>
    ensures { GivesAlways (λ x. x) result (kill_at bytes.now) }
{
    let (run, rest) = number(0, u64::from(u32::MAX), bytes)?;
    let rest = word(b" ", rest)?;
    let (signal, rest) = keyword(&SIGNALS, rest)?;
    let (receiver, rest) = keyword(&RECEIVERS, rest)?;
    end(
        Order::Kill {
            run: Run(run as u32),
            signal,
            group: receiver.is_group(),
        },
        rest,
    )
}

/// Reads all of a spawn after its word.
#[tactic(auto, unfolding(crate::specs::OrderReading::spawn_at))]
fn spawn(alloc: Global, bytes: &[u8]) -> Result<Order, Stop>
    ensures { Gives (λ x. x) result (spawn_at bytes.now) }
{
    let (run, rest) = number(0, u64::from(u32::MAX), bytes)?;
    match text(alloc, rest) {
        Ok((group, rest)) => match text(alloc, rest) {
            Ok((name, rest)) => place(alloc, Run(run as u32), group, name, rest),
            Err(stop) => Err(stop),
        },
        Err(stop) => Err(stop),
    }
}

/// Reads a spawn from its directory on.
#[tactic(auto, unfolding(crate::specs::OrderReading::place_at))]
fn place(alloc: Global, run: Run, group: Text, name: Text, bytes: &[u8]) -> Result<Order, Stop>
    ensures { Gives (λ x. x) result (place_at run.0 group name bytes.now) }
{
    match text(alloc, bytes) {
        Ok((directory, rest)) => match text(alloc, rest) {
            Ok((umask, rest)) => match text(alloc, rest) {
                Ok((user, rest)) => {
                    let names = Names {
                        group,
                        name,
                        directory,
                        umask,
                        user,
                    };
                    command(alloc, run, names, rest)
                }
                Err(stop) => Err(stop),
            },
            Err(stop) => Err(stop),
        },
        Err(stop) => Err(stop),
    }
}

/// Reads the words and the environment of a spawn.
#[tactic(auto, unfolding(crate::specs::OrderReading::command_at))]
fn command(alloc: Global, run: Run, names: Names, bytes: &[u8]) -> Result<Order, Stop>
    ensures { Gives (λ x. x) result
        (command_at run.0 names.group names.name names.directory names.umask names.user
        bytes.now) }
{
    let Names {
        group,
        name,
        directory,
        umask,
        user,
    } = names;
    match texts(alloc, bytes) {
        Ok((words, rest)) => match pairs(alloc, rest) {
            Ok((environment, rest)) => Ok(end(
                Order::Spawn(SpawnOrder {
                    run,
                    group,
                    name,
                    directory,
                    umask,
                    user,
                    words,
                    environment,
                }),
                rest,
            )?),
            Err(stop) => Err(stop),
        },
        Err(stop) => Err(stop),
    }
}

/// Reads how many texts there are, and each of them after a space.
#[tactic(auto, using(crate::proofs::Counted::items_more, crate::proofs::Counted::items_none, crate::proofs::Counted::items_stop))]
fn texts(alloc: Global, bytes: &[u8]) -> Result<(Items<Text>, &[u8]), Stop>
    ensures { Gives (λ x. (x.0, x.1.now)) result (counted_at text_at bytes.now) }
{
    let rest = word(b" ", bytes)?;
    let (count, mut rest) = number(0, u64::MAX, rest)?;
    let mut texts = Items::new(alloc);
    let mut left = count;
    while left > 0 {
        match text(alloc, rest) {
            Ok((next, after)) => {
                texts.push(next)?;
                rest = after;
            }
            Err(stop) => return Err(stop),
        }
        left -= 1;
    }
    Ok((texts, rest))
}

/// Reads a name and a value, each after a space.
fn pair(alloc: Global, bytes: &[u8]) -> Result<((Text, Text), &[u8]), Stop>
    ensures { Gives (λ x. (x.0, x.1.now)) result (pair_at bytes.now) }
{
    match text(alloc, bytes) {
        Ok((name, rest)) => match text(alloc, rest) {
            Ok((value, rest)) => Ok(((name, value), rest)),
            Err(stop) => Err(stop),
        },
        Err(stop) => Err(stop),
    }
}

/// Reads how many pairs there are, and each name and value after a space.
#[tactic(auto, using(crate::proofs::Counted::items_more, crate::proofs::Counted::items_none, crate::proofs::Counted::items_stop))]
fn pairs(alloc: Global, bytes: &[u8]) -> Result<(Items<(Text, Text)>, &[u8]), Stop>
    ensures { Gives (λ x. (x.0, x.1.now)) result (counted_at pair_at bytes.now) }
{
    let rest = word(b" ", bytes)?;
    let (count, mut rest) = number(0, u64::MAX, rest)?;
    let mut pairs = Items::new(alloc);
    let mut left = count;
    while left > 0 {
        match pair(alloc, rest) {
            Ok((next, after)) => {
                pairs.push(next)?;
                rest = after;
            }
            Err(stop) => return Err(stop),
        }
        left -= 1;
    }
    Ok((pairs, rest))
}
