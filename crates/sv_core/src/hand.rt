//! The turn in hand.
use crate::place::Suspended;
use sv_base::moment::Moment;
use sv_out::order::Order;

/// The turn in hand, or the last one.
#[derive(Drop)]
pub struct Hand {
    /// Its moment.
    pub(crate) moment: Moment,
    /// Where it was left at a question.
    pub(crate) place: Option<Suspended>,
    /// The orders of the input in hand.
    pub(crate) given: Vec<Order>,
}
