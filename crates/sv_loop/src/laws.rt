//! What holds of each replay, whatever its status is.
ghost use Rattle.std.specs.Prelude.{List, ℕ};
ghost use Rattle.sv_judge.specs.JournalPlaces.{Line, Stage};
ghost use Rattle.sv_loop.specs.Reading.{IsRead};
ghost use Rattle.sv_loop.specs.WholeJournal.{TellsDeeds};
ghost use Rattle.sv_out.specs.declared.order.Order.{Order};

/// A law: whatever status a replay comes to, the orders that it tells of are the deeds of the inputs that it has read, from the
/// state in which the daemon of the journal's header begins, and each of these inputs was accepted where it came; before the
/// header is whole there are no orders. `IsRead` stands in each row of the table of statuses.
pub fn each_row_tells_deeds()
    ensures { (bytes : List ℕ) (given : List Order) (lines : List Line) (at : Stage)
        (text rest : List ℕ) → IsRead bytes given lines at text rest → TellsDeeds lines at given }
{}
