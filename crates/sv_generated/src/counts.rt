//! What is counted of a run's orders.
ghost use Rattle.std.specs.Prelude.{◌≡◌, ◌≤◌, ◌+◌, ◌^◌, length};
ghost use Rattle.sv_generated.specs.Counted.{edges, kills, spawns};

use sv_out::order::Order;

/// How many orders of three kinds a run gave. A run may give more signals and reports than 64 bits can count, for all
/// that is known of the length of a step's list of orders.
#[derive(Clone, Copy, PartialEq, Eq)]
pub struct Counts {
    /// The spawns.
    pub spawns: u64,
    /// The signals.
    pub kills: u128,
    /// The reports of an edge.
    pub edges: u128,
}

impl Counts {
    /// Nothing was counted.
    pub(crate) fn none() -> Counts
        ensures { result ≡ record { spawns = 0; kills = 0; edges = 0 } }
    {
        Counts {
            spawns: 0,
            kills: 0,
            edges: 0,
        }
    }

    /// These orders are counted too.
    pub(crate) fn add(&mut self, orders: &[Order])
        requires spawns { self.old.spawns ≤ 4294967295 }
        requires kills { self.old.kills ≤ 2 ^ 100 }
        requires edges { self.old.edges ≤ 2 ^ 100 }
        ensures spawns { self.new.spawns ≡ self.old.spawns + spawns orders.now }
        ensures kills { self.new.kills ≡ self.old.kills + kills orders.now }
        ensures edges { self.new.edges ≡ self.old.edges + edges orders.now }
        ensures few_kills { self.new.kills ≤ self.old.kills + 2 ^ 64 }
        ensures few_edges { self.new.edges ≤ self.old.edges + 2 ^ 64 }
    {
        self.spawns += spawns(orders) as u64;
        self.kills += kills(orders) as u128;
        self.edges += edges(orders) as u128;
    }
}

fn spawns(orders: &[Order]) -> usize
    ensures value { result ≡ spawns orders.now }
    ensures few { result ≤ length orders.now }
{
    orders
        .iter()
        .filter(|order| matches!(order, Order::Spawn(_)))
        .count()
}

fn kills(orders: &[Order]) -> usize
    ensures value { result ≡ kills orders.now }
    ensures few { result ≤ length orders.now }
{
    orders
        .iter()
        .filter(|order| matches!(order, Order::Kill { .. }))
        .count()
}

fn edges(orders: &[Order]) -> usize
    ensures value { result ≡ edges orders.now }
    ensures few { result ≤ length orders.now }
{
    orders
        .iter()
        .filter(|order| matches!(order, Order::State { .. }))
        .count()
}
