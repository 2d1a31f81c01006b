//! Tests of the lower layers: texts and rooms, the space of a group, and what waits.
//!
//! - Values, times and names are written and copied (`quantities`); words and parts of tuples are
//!   listed (`words_and_tuples`); two model files and an empty one are cut into sections, which are
//!   found by name (`sections`); events are read, skipped and taken (`events`). Each call that can
//!   want memory is tried once with enough of it, and calls fail.
//! - Rooms in memory are read within a limit and past it, and written whole, or fail (`rooms`); of
//!   the real folder, two files are made in turns with both streams between (`folder`).
//! - Watchers take the place of what was in their list, each cell has a value at the start, a zone
//!   is added (`spaces`); neighbours of cells at the edge and away from it (`neighbours`).
//! - Delay lists take pairs by transport and by inertia (`delay_lists`); both sets of leaves give
//!   up their members (`leaf_sets`); three queues of next times are led through the same moves
//!   (`queues`, over `moves`).
//! - Crates that are tried: `quantity`, `source_text`, `ma_lines`, `event_list`, `room_edge`;
//!   `cell_grid`, `cell_reach`; `delay_lines`, `leaf_set`, `time_queue`.
#![tactic(auto)]

#[cfg(test)]
mod delay_lists;
#[cfg(test)]
mod events;
#[cfg(test)]
mod folder;
#[cfg(test)]
mod leaf_sets;
#[cfg(test)]
mod moves;
#[cfg(test)]
mod neighbours;
#[cfg(test)]
mod offsets;
#[cfg(test)]
mod quantities;
#[cfg(test)]
mod queues;
#[cfg(test)]
mod rooms;
#[cfg(test)]
mod sections;
#[cfg(test)]
mod spaces;
#[cfg(test)]
mod times;
#[cfg(test)]
mod values;
#[cfg(test)]
mod words_and_tuples;
