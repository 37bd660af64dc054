//! What every other crate stands on: texts, lists and boxes that contracts see as plain data, the types of values,
//! places in a text, want of memory, whole numbers as decimal text, and intervals of them.
#![tactic(auto)]

mod boxed;
mod decimal;
mod interval;
mod items;
mod memory;
mod text;
mod types;

pub use boxed::Boxed;
pub use decimal::{put_int, read_int};
pub use interval::Iv;
pub use items::Items;
pub use memory::Memory;
pub use text::Text;
pub use types::{Span, Ty};
