// The changes of a tree: the answers of graft and prune, and what follows of them. There is no code here.
#![tactic(auto)]

// A change of a tree on n leaves.
#[derive(Clone, Copy)]
pub enum Change {
    // leaf n is put on this edge, named by the node below it in the standard listing
    Graft(usize),
    // this leaf is removed, and higher leaves move down by one
    Prune(usize),
}
