//! The drawing program, over any room: a log and a group in, frames on standard output; and the
//! frames of a log, drawn without the model.
//!
//! - `drawlog` takes the words of a command line and a room, and answers the `Status`; its contract
//!   says what it leaves outside, however it ends. `drawlog_surely` is the same over a room that
//!   never fails, where what comes is the answer, but for want of memory.
//! - `draw_log` (`whole_log`) takes the bytes of a log, a group's name and space, a plane, and the
//!   width and decimals of values; it gives the text of all frames, or `DrawRefusal`: the first
//!   line that is off the form of a log, goes back in time, or names no cell of the space.
//! - `read_line` (`log_line`) takes the text of a line, and gives a `LogLine` (a value given, a
//!   value that reached a leaf, or a leaf that moved, with its time and `LeafName`), or none
//!   exactly where the text is off the form. It takes no memory. A line of the usual form is read
//!   from left to right in one go (`usual_line`, `front`, `usual`, `usual_time`), any other part by
//!   part (`parts`, `leaf_name`).
//! - Definitions: `answer_model/specs/Drawlog.antt` (the answer), `Programs.antt` there
//!   (`DrawlogEnds`, `DrawlogCauses`); `frames_of_log` of `text_forms/specs/Frames.antt`, and
//!   `read_line` of `LogLine.antt` there; what is drawn: `specs/Answered.antt` (`IsDrawn`); which
//!   line a `LogLine` stands for: `specs/LineRead.antt`. That these frames are those of the run
//!   is a law of `text_forms` and `answer_model`.
//! - Laws (`laws`): examples of cells of three dimensions. It rests on `asked_words` for words and
//!   for what is told, and on `frame_draw`. The process is `drawlog_cli`.
#![tactic(auto)]

mod draw;
mod frames;
mod front;
pub mod laws;
pub mod leaf_name;
mod line;
pub mod log_line;
mod parts;
mod program;
pub mod refusal;
mod refuse;
mod sure;
mod usual;
mod usual_line;
mod usual_time;
mod whole_log;

pub use leaf_name::LeafName;
pub use log_line::{LogLine, read_line};
pub use program::drawlog;
pub use refusal::DrawRefusal;
pub use sure::drawlog_surely;
pub use whole_log::draw_log;
