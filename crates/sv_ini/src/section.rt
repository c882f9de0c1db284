//! A section of a configuration text.

use sv_base::items::Items;
use sv_base::text::Text;

/// A section of a configuration text.
#[derive(Drop)]
pub struct Section {
    /// The name between the brackets, as it stands there.
    pub name: Text,
    /// The keys in lower case with their values, each once, in order of first appearance.
    pub keys: Items<(Text, Text)>,
}
