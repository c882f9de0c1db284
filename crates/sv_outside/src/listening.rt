//! What accepts links: one such object for each address at which clients may connect.
ghost use Rattle.std.specs.Prelude.{◌≡◌, ℕ, Option, Some, is_ok, option_map};
ghost use Rattle.sv_out.specs.Faults.{HasCause};
ghost use Rattle.sv_outside.specs.Listening.{Accepts, accepted};

use crate::calls::Calls;
use std::collections::VecDeque;
use sv_out::failed::Failed;
use sv_out::{Link, ScriptLink};

/// What accepts the links of one address. One that can, tells how many calls it had and how many links it gave, as far
/// as the numbers go.
pub trait Listen {
    type Link: Link + Drop;

    ghost told: { Self → Option Accepts };

    ghost faults: { Self → ℕ };

    /// Waits for the next link. It takes no memory. Fails only where the count of faults rose in this call.
    fn accept(&mut self) -> Result<Self::Link, Failed>
        ensures told { told self.new ≡ option_map (accepted (is_ok result)) (told self.old) }
        ensures cause { HasCause (faults self.old) (faults self.new) result };
}

/// In memory: it gives the links of a list in turn, and fails at the calls that it was made to fail at, the first call
/// being 1, and once the list is used up.
#[derive(Drop)]
pub struct ScriptListen {
    links: VecDeque<ScriptLink>,
    asked: u64,
    given: u64,
    calls: Calls,
}

impl ScriptListen {
    ghost use Rattle.sv_out.specs.Plans.{none_made};
    ghost use Rattle.sv_outside.specs.Listening.{links_left, told_accepts};
    ghost use Rattle.sv_outside.specs.Plans.{listen_plan};

    /// It gives these links, in their order.
    pub fn new(links: VecDeque<ScriptLink>, failing: Vec<u64>) -> ScriptListen
        ensures plan { listen_plan result ≡ none_made failing.items }
        ensures told { ⟦<ScriptListen as Listen>⟧.told result ≡ Some (record { calls = 0; given = 0 }) }
        ensures links { links_left result ≡ links.items }
        ensures faults { ⟦<ScriptListen as Listen>⟧.faults result ≡ 0 }
    {
        ScriptListen {
            links,
            asked: 0,
            given: 0,
            calls: Calls::new(failing),
        }
    }

    /// How many links it gave.
    pub fn given(&self) -> u64
        ensures { option_map (λ (accepts : Accepts). accepts.given) (told_accepts self.now)
            ≡ Some result }
    {
        self.given
    }

    /// How many calls failed.
    pub fn faults(&self) -> u64
        ensures { result ≡ ⟦<ScriptListen as Listen>⟧.faults self.now }
    {
        self.calls.faults()
    }
}

impl Listen for ScriptListen {
    ghost use Rattle.std.specs.Prelude.{◌∷◌, [], false, IfOk, IsErr, IsTrue};
    ghost use Rattle.sv_out.specs.Plans.{is_to_fail};
    ghost use Rattle.sv_outside.specs.Listening.{links_left, listen_faults, told_accepts};
    ghost use Rattle.sv_outside.specs.Plans.{listen_plan};

    type Link = ScriptLink;

    ghost told = { λ l. Some (record { calls = l.asked; given = l.given }) };

    ghost faults = { λ l. l.calls.faults };

    fn accept(&mut self) -> Result<ScriptLink, Failed>
        ensures told { told_accepts self.new ≡ option_map (accepted (is_ok result)) (told_accepts self.old) }
        ensures cause { HasCause (listen_faults self.old) (listen_faults self.new) result }

        // It fails at its calls, and where no link is left; else it gives the next one.
        ensures fails { IsTrue (is_to_fail (listen_plan self.old)) → IsErr result }
        ensures links { IfOk result (λ link. links_left self.old ≡ link ∷ links_left self.new) }
        ensures kept { IsErr result → links_left self.new ≡ links_left self.old }
        ensures only { IsErr result → is_to_fail (listen_plan self.old) ≡ false
            → links_left self.old ≡ [] }
    {
        self.asked = self.asked.saturating_add(1);
        if self.calls.next_fails() {
            return Err(Failed);
        }
        let Some(link) = self.links.pop_front() else {
            self.calls.count_fault();
            return Err(Failed);
        };
        self.given = self.given.saturating_add(1);
        Ok(link)
    }
}
