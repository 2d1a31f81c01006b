//! What both programs are asked, and what they tell: the words of a command line, option by option,
//! and a line that is shown or complained, with the status that comes of it.
//!
//! - `given_words` takes the words that a process is given. `read_words` gives what they ask of the
//!   simulator (`Asked`, with `Source` and `FramesFile`), `read_drawing_words` what they ask of the
//!   drawing program (`AskedDrawing`), or none where they are refused.
//! - The options have a row each (`table`), by which the command line of `clap` (`command`), the
//!   line of usage and the value of each option (`values`) are made. Inside, `cdpp_draft` and
//!   `drawlog_draft` take the words of a command line and give a `Draft`, what each option says by
//!   itself, or none where the words are refused. `usage_line` and `drawing_usage_line` give the
//!   lines of usage.
//! - `show` takes the bytes with which a program ends; `complain`, `complain_named`, `complain_of`
//!   and `write_fault` take a line or a name. Each answers the `Status`: the one that belongs to
//!   it, or that of a write fault or of want of memory where the line can't be written.
//! - `GroupAt` is the group that is drawn, by where it stands in a model.
//! - Definitions: `answer_model/specs/Options.antt` (`built_rows`, `drawing_rows`), and the same in
//!   code: `specs/Drafts.antt`; what options say together: `answer_model/specs/Asked.antt`,
//!   `AskedDrawing.antt`; `specs/Shown.antt` joins these types with them, `Group.antt` says which
//!   group is drawn. What is told: `Endings.antt` of `answer_model` (`Says`, `ShowsEnd`),
//!   `Answer.antt` there (the lines), over `show_all` and `complain_all` of `room_edge`.
#![tactic(auto)]

pub mod asked;
mod command;
mod complaints;
pub mod draft;
mod drawlog;
mod given;
pub mod group;
mod lines;
mod read;
mod shown;
mod table;
pub mod values;

pub use answer_model::Status;
pub use asked::{Asked, AskedDrawing, FramesFile, Source, read_words};
pub use complaints::{complain, complain_named, complain_of, write_fault};
pub use draft::Draft;
pub use drawlog::read_drawing_words;
pub use given::given_words;
pub use group::GroupAt;
pub use shown::show;
pub use table::{drawing_usage_line, usage_line};
