//! The world of the daemon.
ghost use Rattle.std.specs.Prelude.{None};
ghost use Rattle.sv_threads.specs.Giving.{tells};

use crate::hearing::hear;
use crate::world::ThreadWorld;
use std::alloc::{AllocError, Global};
use std::sync::Wait;
use sv_jobs::AnyJob;
use sv_out::files::Shelf;
use sv_out::input::Input;
use sv_out::order::Order;
use sv_out::source::Source;
use sv_outside::{Clock, Gate, Handed, Job, Listen, NextFault, Spawner, World};

impl<
    P: Spawner + Drop,
    L: Listen + Drop,
    Q: Source + Drop,
    C: Clock + Drop,
    B: Job,
    S: Shelf + Drop,
    G: Gate<AnyJob<P::Stdin, P::Stdout, P::Stderr, P::Waiter, L, Q, C, B>> + Drop,
    R: Wait + Copy,
> ThreadWorld<P, L, Q, C, B, S, G, R> {
    ghost use Rattle.std.specs.Prelude.{◌≡◌, ◌≤◌};
    ghost use Rattle.sv_lane.specs.Ends.{taken};
    ghost use Rattle.sv_threads.specs.Giving.{Gives, answer_left, failures_left};
    ghost use Rattle.sv_threads.specs.Hearing.{SettlesTaken, count_after_call};
    ghost use Rattle.sv_threads.specs.Performing.{HandsOver};

    /// The next input: a failure of an order that was handed over, in the order in which they came; else the answer to
    /// the question that stands; else the next note that is an input, at the clock's moment. Waits for that note.
    #[tactic(auto, using(crate::proofs::Inputs::gives_failure, crate::proofs::Inputs::later_left, crate::proofs::Inputs::answer_kept, crate::proofs::Inputs::gives_answer, crate::proofs::Inputs::gives_note, crate::proofs::Inputs::no_link_more, crate::proofs::Inputs::none_taken))]
    pub fn next_input(&mut self) -> Result<Input, AllocError>
        ensures gives { Gives self.old.failures.items self.old.answer (C.next self.old.clock)
            self.old.links.count (taken self.old.notes) (taken self.new.notes) result }
        ensures failures { self.new.failures.items ≡ failures_left self.old.failures.items }
        ensures answer { self.new.answer ≡ answer_left self.old.failures.items self.old.answer }
        ensures known { SettlesTaken (taken self.old.notes) (taken self.new.notes)
            self.old.runs self.new.runs self.old.links self.new.links }
        ensures count { self.new.links.count ≡ count_after_call result self.old.links.count }
        ensures spawner { self.new.runs.spawner ≡ self.old.runs.spawner }
        ensures gate { self.new.gate ≡ self.old.gate }
        ensures shelf { self.new.shelf ≡ self.old.shelf }
        ensures number { self.new.number ≡ self.old.number }
        ensures faults { self.new.faults ≡ self.old.faults }
    {
        if let Some(number) = self.failures.pop_front() {
            return Ok(Input::Failed(number));
        }
        if let Some(answer) = self.answer.take() {
            return Ok(answer.into_input());
        }
        hear(
            &self.rt,
            &mut self.notes,
            &mut self.clock,
            &mut self.accepted,
            &mut self.runs,
            &mut self.links,
        )
    }

    /// Hands an order to the part that it belongs to. One that fails is counted, and told by a later input.
    #[tactic(auto, using(crate::proofs::Failures::over_done, crate::proofs::Failures::over_failed, crate::proofs::Failures::over_refused))]
    pub fn hand_over(&mut self, alloc: Global, order: &Order) -> Result<(), AllocError>
        ensures hands { HandsOver order.now
            (record {
              spawner = (P.asked self.old.runs.spawner, P.faults self.old.runs.spawner);
              gate = self.old.gate;
              shelf = (S.files self.old.shelf, S.faults self.old.shelf);
              lives = self.old.runs.lives.items;
              links = self.old.links;
              answer = self.old.answer;
            })
            (record {
              spawner = (P.asked self.new.runs.spawner, P.faults self.new.runs.spawner);
              gate = self.new.gate;
              shelf = (S.files self.new.shelf, S.faults self.new.shelf);
              lives = self.new.runs.lives.items;
              links = self.new.links;
              answer = self.new.answer;
            })
            (record {
              number = self.old.number;
              failures = self.old.failures.items;
              faults = self.old.faults;
            })
            (record {
              number = self.new.number;
              failures = self.new.failures.items;
              faults = self.new.faults;
            })
            result }
        ensures notes { self.new.notes ≡ self.old.notes }
        ensures later { self.old.faults ≤ self.new.faults }
    {
        match self.hand_on(alloc, order)? {
            Handed::Done => {}
            Handed::Failed => {
                self.failures.push_back(self.number)?;
                self.faults = self.faults.saturating_add(1);
            }
        }
        self.number = self.number.wrapping_add(1);
        Ok(())
    }
}

impl<
    P: Spawner + Drop,
    L: Listen + Drop,
    Q: Source + Drop,
    C: Clock + Drop,
    B: Job,
    S: Shelf + Drop,
    G: Gate<AnyJob<P::Stdin, P::Stdout, P::Stderr, P::Waiter, L, Q, C, B>> + Drop,
    R: Wait + Copy,
> World for ThreadWorld<P, L, Q, C, B, S, G, R> {
    ghost use Rattle.std.specs.Prelude.{◌≡◌, ◌≤◌, ◌+◌, ◌%◌, ◌^◌, ℕ, true, IfErr, IfOk, OnErr, OnOk};
    ghost use Rattle.sv_outside.specs.declared.world.NextFault.TheVariants.{OutOfMemory};
    ghost use Rattle.sv_lane.specs.Ends.{taken};
    ghost use Rattle.sv_out.specs.Faults.{RisesWhere};
    ghost use Rattle.sv_threads.specs.Giving.{Gives};
    ghost use Rattle.sv_threads.specs.Performing.{HandsOver};
    ghost use Rattle.sv_outside.specs.Worlds.{IsBroken, MayFail, Takes, WasToFail};

    ghost given = { λ w. None };

    ghost left = { λ w. None };

    ghost handed = { λ w. None };

    ghost number = { λ w. w.number };

    ghost failed = { λ w n. tells n w.failures.items };

    ghost faults = { λ w. w.faults };

    ghost breaks = { λ w. 0 };

    #[tactic(auto, using(crate::proofs::Inputs::gives_ok, crate::proofs::Inputs::gives_err, crate::proofs::Inputs::was_told, crate::proofs::Failures::still_told))]
    fn next(&mut self, _alloc: Global) -> Result<Input, NextFault>
        ensures left { Takes None None result }
        ensures failure { IfOk result (WasToFail (λ n. tells n self.old.failures.items)
            self.old.number) }
        ensures failures { (n : ℕ) → tells n self.new.failures.items ≡ true
            → tells n self.old.failures.items ≡ true }
        ensures breaks { RisesWhere 0 0 (IsBroken result) }
        ensures faults { self.new.faults ≡ self.old.faults }
        ensures number { self.new.number ≡ self.old.number }

        // A failure first, then the answer, then the next note that is an input; no other error than out of memory.
        ensures memory { IfErr result (λ fault. fault ≡ OutOfMemory) }
        ensures gives { Gives self.old.failures.items self.old.answer (C.next self.old.clock)
            self.old.links.count (taken self.old.notes) (taken self.new.notes) result }
    {
        Ok(self.next_input()?)
    }

    #[tactic(auto, using(crate::proofs::Failures::told_failed, crate::proofs::Failures::next_number))]
    fn perform(&mut self, alloc: Global, order: &Order) -> Result<(), AllocError>
        ensures number { OnOk result (self.new.number ≡ (self.old.number + 1) % 2 ^ 64) }
        ensures failures { (n : ℕ) → tells n self.new.failures.items ≡ true
            → MayFail (λ m. tells m self.old.failures.items) self.old.number
            self.old.faults self.new.faults n }
        ensures faults { self.old.faults ≤ self.new.faults }

        // Each order is handed to its part, and counted where it failed.
        ensures hands { HandsOver order.now
            (record {
              spawner = (P.asked self.old.runs.spawner, P.faults self.old.runs.spawner);
              gate = self.old.gate;
              shelf = (S.files self.old.shelf, S.faults self.old.shelf);
              lives = self.old.runs.lives.items;
              links = self.old.links;
              answer = self.old.answer;
            })
            (record {
              spawner = (P.asked self.new.runs.spawner, P.faults self.new.runs.spawner);
              gate = self.new.gate;
              shelf = (S.files self.new.shelf, S.faults self.new.shelf);
              lives = self.new.runs.lives.items;
              links = self.new.links;
              answer = self.new.answer;
            })
            (record {
              number = self.old.number;
              failures = self.old.failures.items;
              faults = self.old.faults;
            })
            (record {
              number = self.new.number;
              failures = self.new.failures.items;
              faults = self.new.faults;
            })
            result }
    {
        self.hand_over(alloc, order)
    }
}
