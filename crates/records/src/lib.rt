//! The records of a lent table, and the trees whose nodes lie in it: the types, reading and writing one record,
//! and the definitions and lemmas that the calls of crate nodes are proved by.
#![tactic(auto)]

mod kind;
mod places;
mod record;
mod table;

pub use kind::Kind;
pub use places::{FourPlaces, FreePlaces, Sinking};
pub use record::{BoxNumbers, NONE, Record};
pub use table::{
    BLANK, read, read_or, relink, set_children, set_first, set_rank, set_second, write,
};
