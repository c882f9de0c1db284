//! One of several calls in one.

use sv_base::text::Text;
use sv_xmlcall::call::Call;

/// One of several calls in one: a call to be carried out, or the fault in place of one.
#[derive(Drop)]
pub enum Part {
    /// The call.
    Call(Call),
    /// A fault: its number and its text.
    Fault(u32, Text),
}
