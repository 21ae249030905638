//! Containers that contracts see as what they hold: a list, or one value. A tree built over them is
//! plain data in a clause, so that `≡` between two trees compares their elements and no addresses.
#![tactic(auto)]

mod boxed;
mod graded;
mod items;
mod no_memory;
mod parts;
mod shared;

pub use boxed::Boxed;
pub use graded::Graded;
pub use items::Items;
pub use no_memory::NoMemory;
pub use parts::both;
pub use shared::Shared;
