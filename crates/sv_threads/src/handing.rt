//! How orders are handed on, each to the part that it belongs to.
ghost use Rattle.sv_threads.specs.Performing.{HandsOn};

use crate::answers::{answer_file, answer_spawn};
use crate::link_words::{more, send};
use crate::world::ThreadWorld;
use std::alloc::{AllocError, Global};
use std::sync::Wait;
use sv_jobs::AnyJob;
use sv_out::files::Shelf;
use sv_out::order::Order;
use sv_out::source::Source;
use sv_outside::{Clock, Gate, Handed, Job, Listen, Spawner};
use sv_parts::files::{append, clear_file, file_names, file_size, fresh, read_file, shift};
use sv_parts::runs::spawn;

impl<
    P: Spawner + Drop,
    L: Listen + Drop,
    Q: Source + Drop,
    C: Clock + Drop,
    B: Job,
    S: Shelf + Drop,
    G: Gate<AnyJob<P::Stdin, P::Stdout, P::Stderr, P::Waiter, L, Q, C, B>> + Drop,
    R: Wait + Copy,
> ThreadWorld<P, L, Q, C, B, S, G, R> {
    ghost use Rattle.std.specs.Prelude.{◌≡◌};

    /// Hands an order to the part that it belongs to. Reports and Halt belong to none.
    #[tactic(auto, using(crate::proofs::Questions::spawned, crate::proofs::Questions::asked))]
    pub(crate) fn hand_on(&mut self, alloc: Global, order: &Order) -> Result<Handed, AllocError>
        ensures hands { HandsOn order.now
            (record {
              spawner = (P.asked self.old.runs.spawner, P.faults self.old.runs.spawner);
              gate = self.old.gate;
              shelf = (S.files self.old.shelf, S.faults self.old.shelf);
              lives = self.old.runs.lives.items;
              links = self.old.links;
              answer = self.old.answer;
            })
            (record {
              spawner = (P.asked self.new.runs.spawner, P.faults self.new.runs.spawner);
              gate = self.new.gate;
              shelf = (S.files self.new.shelf, S.faults self.new.shelf);
              lives = self.new.runs.lives.items;
              links = self.new.links;
              answer = self.new.answer;
            }) result }
        ensures notes { self.new.notes ≡ self.old.notes }
        ensures number { self.new.number ≡ self.old.number }
        ensures failures { self.new.failures ≡ self.old.failures }
        ensures faults { self.new.faults ≡ self.old.faults }
    {
        match order {
            Order::State { .. } | Order::Dropped { .. } | Order::Halt => Ok(Handed::Done),
            Order::Spawn(order) => {
                let given = spawn(
                    &self.rt,
                    alloc,
                    &mut self.runs,
                    &mut self.seats,
                    &mut self.gate,
                    order,
                );
                answer_spawn(&mut self.answer, given)
            }
            Order::Kill { run, signal, group } => self.runs.kill(alloc, *run, *signal, *group),
            Order::Stdin { run, bytes } => self.runs.stdin(&self.rt, *run, bytes),
            Order::Append { file, bytes } => append(alloc, &mut self.shelf, file, bytes),
            Order::Shift { from, to } => shift(alloc, &mut self.shelf, from, to),
            Order::Fresh { file } => fresh(alloc, &mut self.shelf, file),
            Order::ReadFile {
                file,
                start,
                length,
            } => {
                let given = read_file(alloc, &mut self.shelf, file, *start, *length);
                answer_file(&mut self.answer, given)
            }
            Order::ClearFile { file } => {
                let given = clear_file(alloc, &mut self.shelf, file);
                answer_file(&mut self.answer, given)
            }
            Order::Names { pattern } => {
                let given = file_names(alloc, &mut self.shelf, pattern);
                answer_file(&mut self.answer, given)
            }
            Order::Size { file } => {
                let given = file_size(alloc, &mut self.shelf, file);
                answer_file(&mut self.answer, given)
            }
            Order::Send { link, bytes } => send(
                &self.rt,
                alloc,
                &mut self.links,
                &mut self.seats,
                &mut self.gate,
                *link,
                bytes,
            ),
            Order::More { link } => more(
                &self.rt,
                alloc,
                &mut self.links,
                &mut self.seats,
                &mut self.gate,
                *link,
            ),
            Order::Close { link } => Ok(self.links.close(&self.rt, *link)),
        }
    }
}
