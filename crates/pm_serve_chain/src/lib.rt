//! The chain of journal and book of a server of many connections, by the parts that a run leaves.
//!
//! These are laws alone. `proofs/ChainedLaws` has the chain, and that journal and book agree on the generations (`specs/Renewed`), over
//! what `proofs/JournalLaws` says of a journal by its moves, slot by slot, `proofs/BookLaws` of a book by those who noted its entries,
//! `proofs/RunsLaws` of the runs of one slot, and `proofs/OnceLaws` of lists in which nothing stands twice.
#![tactic(auto)]
