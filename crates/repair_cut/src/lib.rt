// The first two passes of a repair. Chains are cut at their first bad link, each entry met once: then every chain is sound. Each
// entry that was met looks up its own key: only the first with a key finds itself, and is kept.
#![tactic(auto)]

pub mod cut;
pub mod first;
pub mod marks;
