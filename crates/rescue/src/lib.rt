// Rescue of a stick with holes, document 02, section 11: the definitions, the theorems and the answer; the call is crate salvage's.
#![tactic(auto)]

use answers::Refusal;
use store::Counts;

// What a salvage wrote: how many items the stick has, two numbers of the list each; how many bytes the clean intake has; and the counts of
// the store, whose rows are the kept items.
#[derive(Clone, Copy)]
pub struct Clean {
    pub items: usize,
    pub bytes: usize,
    pub counts: Counts,
}
