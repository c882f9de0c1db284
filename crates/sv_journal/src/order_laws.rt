//! Laws over the lines of orders.
ghost use Rattle.std.specs.Prelude.{◌≡◌, ◌==◌, false};
ghost use Rattle.std.specs.List.{list_any};
ghost use Rattle.sv_out.specs.declared.order.Order.{Order};
ghost use Rattle.sv_journal.specs.JournalLine.{order_line};
ghost use Rattle.sv_journal.specs.Orders.{FitsOrder};

/// A law: no line has two meanings as an order.
pub fn each_line_is_one_order()
    ensures { (one : Order) (other : Order)
        → FitsOrder one → FitsOrder other → order_line one ≡ order_line other → one ≡ other }
{}

/// A law: no line of an order holds a line feed.
pub fn no_order_line_holds_a_line_feed()
    ensures { (o : Order) → FitsOrder o → list_any (λ b. b == 10) (order_line o) ≡ false }
{}
