//! Laws of the start order: sorting gives each process and each group its place, and none is lost or doubled.
ghost use Rattle.std.specs.Prelude.{List, IsPermutation, map};
ghost use Rattle.sv_base.specs.declared.spec.GroupSpec.{GroupSpec};
ghost use Rattle.sv_base.specs.declared.spec.Spec.{Spec};
ghost use Rattle.sv_conf.specs.Configuration.{sorted_members, sorted_groups, with_sorted};

/// A law: a group's processes in start order are the same ones, each as often.
#[tactic(auto, using(crate::proofs::SortingLemmas::Sorted::members_kept))]
pub fn sorting_keeps_each_process()
    ensures { (members : List Spec) → IsPermutation members (sorted_members members) }
{}

/// A law: the groups in start order are the same ones, each as often and with its processes in start order.
#[tactic(auto, using(crate::proofs::SortingLemmas::Sorted::groups_kept))]
pub fn sorting_keeps_each_group()
    ensures { (groups : List GroupSpec)
        → IsPermutation (map with_sorted groups) (sorted_groups groups) }
{}
