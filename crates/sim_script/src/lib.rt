//! Scripts of runs of two ends (this project's own): the reading of a line, and of a text of lines.
//!
//! Each line makes one choice. Its parts have one space between each two. Numbers are decimal, with no sign and no
//! leading zeros. SIDE is `C`, the client, or `S`, the server.
//!
//! | Line | Choice |
//! |---|---|
//! | `submit` SIDE LENGTH FIRST | the layer above that end submits LENGTH bytes, 1 to 1,048,576, that count up from FIRST, 0 to 255, and go on at 0 after 255 |
//! | `drive` SIDE | the end does what comes next at it |
//! | `carry` SIDE | the end takes the oldest frame in flight to it |
//! | `cut` SIDE | the link is cut, and the end with it |
//!
//! Lines are ended by line feeds. The last one may lack its own. `next_line` and `next_end` read the lines of other texts too.
#![tactic(auto)]

mod fault;
mod laws;
mod lines;
mod reading;
mod script;
mod script_line;
mod word;
mod worked;

pub use fault::ScriptFault;
pub use laws::{
    lines_end_at_line_feeds, written_lines_are_read, written_lines_differ, written_scripts_are_read,
};
pub use lines::next_line;
pub use reading::read_line;
pub use script::{first_bad_line, read_script, run_text};
pub use script_line::ScriptLine;
pub use word::next_end;
pub use worked::worked_scripts;
