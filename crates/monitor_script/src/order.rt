// The orders of a script.

use bril_tree::text::Text;

/// What a script asks of a monitor. The function may be none of the program's, and the item none of the function's.
#[derive(Drop)]
pub enum Order {
    /// Mark this item of this function, counted from 0.
    Break { func: Text, item: u32 },
    /// Take the mark from this item of this function, counted from 0.
    Clear { func: Text, item: u32 },
    /// Run to the next marked item.
    Go,
    /// Run to the next item.
    Step,
    /// Tell the values at the item where the run stands.
    Show,
}
