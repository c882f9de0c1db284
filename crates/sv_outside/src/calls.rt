//! Which calls of an object in memory are to fail, and how many did.
ghost use Rattle.std.specs.Prelude.{◌≡◌, ◌≤◌};
ghost use Rattle.std.specs.Bool.{OnTrue};
ghost use Rattle.sv_out.specs.Faults.{Rose, counted};
ghost use Rattle.sv_out.specs.Plans.{called, is_to_fail, none_made};
ghost use Rattle.sv_outside.specs.Plans.{call_plan};

/// The numbers of the calls that are to fail, the first call being 1; the calls so far; the faults among them.
#[derive(Drop)]
pub(crate) struct Calls {
    failing: Vec<u64>,
    calls: u64,
    faults: u64,
}

impl Calls {
    /// No call yet.
    pub(crate) fn new(failing: Vec<u64>) -> Calls
        ensures { call_plan result ≡ none_made failing.items }
    {
        Calls {
            failing,
            calls: 0,
            faults: 0,
        }
    }

    /// Begins a call: whether it is to fail, and then it counts as a fault.
    pub(crate) fn next_fails(&mut self) -> bool
        ensures told { result ≡ is_to_fail (call_plan self.old) }
        ensures plan { call_plan self.new ≡ called (call_plan self.old) result }
        ensures later { self.old.faults ≤ self.new.faults }
        ensures rose { OnTrue result (Rose self.old.faults self.new.faults) }
    {
        self.calls = self.calls.saturating_add(1);
        if !self.failing.as_slice().contains(&self.calls) {
            return false;
        }
        self.count_fault();
        true
    }

    /// Counts a fault.
    pub(crate) fn count_fault(&mut self)
        ensures kept { self.new ≡ record self.old { faults = counted self.old.faults } }
        ensures rose { Rose self.old.faults self.new.faults }
        ensures later { self.old.faults ≤ self.new.faults }
    {
        self.faults = self.faults.saturating_add(1);
    }

    /// How many calls failed.
    pub(crate) fn faults(&self) -> u64
        ensures { result ≡ self.now.faults }
    {
        self.faults
    }
}
