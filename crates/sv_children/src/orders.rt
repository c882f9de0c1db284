//! The orders that a step of a child gives.
ghost use Rattle.std.specs.Prelude.{◌≡◌, ◌++◌, ◌∷◌, [], Some, OnOk, IfOk};
ghost use Rattle.sv_children.specs.Orders.{kill, kill_at, reports, reports_at, spawn, spawn_at};

use crate::children::Children;
use std::alloc::AllocError;
use sv_base::ids::Run;
use sv_base::signal::Signal;
use sv_base::spec::{GroupSpec, Spec};
use sv_child::step::Edge;
use sv_out::order::{Order, SpawnOrder};

impl Children {
    /// Reports the edges that the child of a place took, in order.
    pub fn report(
        &self,
        place: usize,
        edges: &[Option<Edge>],
        given: &mut Vec<Order>,
    ) -> Result<(), AllocError>
        ensures { OnOk result (given.new.items
            ≡ given.old.items ++ reports_at self.now place edges.now) }
    {
        let mut left = edges;
        while let [edge, rest @ ..] = left {
            self.report_one(place, edge, given)?;
            left = rest;
        }
        Ok(())
    }

    /// Reports an edge, if there is one. Only then is the child's name looked up.
    #[tactic(auto, using(crate::proofs::Reports::no_edge))]
    fn report_one(
        &self,
        place: usize,
        edge: &Option<Edge>,
        given: &mut Vec<Order>,
    ) -> Result<(), AllocError>
        ensures { OnOk result (given.new.items
            ≡ given.old.items ++ reports_at self.now place (edge.now ∷ [])) }
    {
        match edge {
            None => Ok(()),
            Some(edge) => {
                self.report_edge(place, *edge, given)?;
                Ok(())
            }
        }
    }

    fn report_edge(
        &self,
        place: usize,
        edge: Edge,
        given: &mut Vec<Order>,
    ) -> Result<(), AllocError>
        ensures { OnOk result (given.new.items
            ≡ given.old.items ++ reports_at self.now place (Some edge ∷ [])) }
    {
        match self.roster.process(place) {
            None => Ok(()),
            Some(process) => report_edge(process.0, process.1, edge, given),
        }
    }

    /// Orders the run of the child of a place to be sent a signal, with `group` its whole process group.
    pub fn kill(
        &self,
        place: usize,
        signal: Signal,
        group: bool,
        given: &mut Vec<Order>,
    ) -> Result<(), AllocError>
        ensures { OnOk result (given.new.items
            ≡ given.old.items ++ kill_at self.now place signal group) }
    {
        match self.all.as_slice().get(place) {
            None => Ok(()),
            Some(child) => {
                kill_run(child.run, signal, group, given)?;
                Ok(())
            }
        }
    }

    /// All that is needed to start the process of a place as this run.
    pub fn spawn_order(&self, place: usize, run: Run) -> Result<Option<SpawnOrder>, AllocError>
        ensures { IfOk result (λ order. order ≡ spawn_at self.now place run.0) }
    {
        match self.roster.process(place) {
            None => Ok(None),
            Some(process) => {
                let order = spawn_order(process.0, process.1, run)?;
                Ok(Some(order))
            }
        }
    }
}

fn report_edge(
    group: &GroupSpec,
    spec: &Spec,
    edge: Edge,
    given: &mut Vec<Order>,
) -> Result<(), AllocError>
    ensures { OnOk result (given.new.items
        ≡ given.old.items ++ reports group.now.name spec.now.name (Some edge ∷ [])) }
{
    given.push(Order::State {
        group: group.name.clone()?,
        name: spec.name.clone()?,
        from: edge.from,
        to: edge.to,
    })?;
    Ok(())
}

fn kill_run(
    run: Option<Run>,
    signal: Signal,
    group: bool,
    given: &mut Vec<Order>,
) -> Result<(), AllocError>
    ensures { OnOk result (given.new.items ≡ given.old.items ++ kill run signal group) }
{
    if let Some(run) = run {
        given.push(Order::Kill { run, signal, group })?;
    }
    Ok(())
}

fn spawn_order(group: &GroupSpec, spec: &Spec, run: Run) -> Result<SpawnOrder, AllocError>
    ensures { IfOk result (λ order. order ≡ spawn group.now.name spec.now run.0) }
{
    Ok(SpawnOrder {
        run,
        group: group.name.clone()?,
        name: spec.name.clone()?,
        directory: spec.directory.clone()?,
        umask: spec.umask.clone()?,
        user: spec.user.clone()?,
        words: spec.words.clone()?,
        environment: spec.environment.clone()?,
    })
}
