//! The quantities of a model: values with five decimals or `?`, three truth values, times in
//! milliseconds, names and places: what is computed with them, and how they are written and read.
//!
//! - Types: `Value` (arithmetic and `compare`; `Raw` is its number of hundred-thousandths), `Tri`,
//!   `Time`, `Name`, `Text`, `Place`, `Offset`, `DelayKind`, `OutOfMemory`.
//! - `PackedValue`, `ValueBytes`, `MaybeValueBytes`, `MaybeTime` and `MaybeNumber` hold a value, a
//!   time, a number or none in the room of its number alone, for lists and records of which there is
//!   one for each cell or leaf. Contracts see each as what it holds (`specs/Packed.antt`).
//! - Texts of people are read by `parse` of `Value`, `Time` and `Name`, and by `whole_number` and
//!   `signed_number` (`digits`). What `text` and `text5` write is read by `read_text` and
//!   `read_text5`, and nothing else is. `put` appends a text to another.
//! - Definitions: `specs/Arithmetic.antt`, `Truth.antt`; of texts `Literals.antt`,
//!   `ValueTexts.antt`, `Times.antt`, `Names.antt`, `Digits.antt`. `Delay.antt` says what a delay
//!   list is (kept in `delay_lines`), `Bytes.antt` what words are (read in `source_text`).
//! - Bounds that many crates share (`bounds`): `MAX_TIME`, `MAX_DELAY`, `MAX_RAW`, `MAX_CELLS`, and
//!   others.
//! - Laws (`laws`): truth tables, order, overflow; what is written is read, and nothing else is.
#![tactic(auto)]

pub mod bounds;
pub mod bytes;
pub mod delay;
pub mod digits;
pub mod laws;
mod literal;
pub mod maybe_number;
pub mod maybe_time;
pub mod memory;
pub mod name;
pub mod packed_value;
pub mod place;
pub mod raw;
mod short_text;
pub mod time;
pub mod truth;
pub mod value;
pub mod value_bytes;

pub use bounds::{
    MAX_ATOMICS, MAX_CELLS, MAX_CYCLES, MAX_DELAY, MAX_EVENTS, MAX_FILE_BYTES, MAX_LEVELS,
    MAX_LINKS, MAX_LOG_BYTES, MAX_OFFSETS, MAX_PATHS, MAX_PORTS, MAX_RAW, MAX_RULES, MAX_TIME,
};
pub use bytes::put;
pub use delay::DelayKind;
pub use maybe_number::MaybeNumber;
pub use maybe_time::MaybeTime;
pub use memory::{OutOfMemory, counted};
pub use name::{Name, NameRefusal, Text};
pub use packed_value::PackedValue;
pub use place::{Offset, Place};
pub use raw::Raw;
pub use time::{Time, earlier};
pub use truth::Tri;
pub use value::{Compare, Overflow, Value};
pub use value_bytes::{MaybeValueBytes, ValueBytes};
