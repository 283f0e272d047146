//! Runs of scripts over a world and of threads files over a service; the lines that they read and write; and the arguments of the program.
#![tactic(auto)]

mod arguments;
mod devices;
mod script;
mod text;
mod threads;

pub use arguments::{Program, WordsFault, program_and_file};
pub use devices::{Limits, MemorySink, MemorySource, Pieces, WHOLE, bytewise};
pub use script::{Summary, drive};
pub use text::{
    Chunk, DriveFault, Ending, Failures, MAX_LINE, ReadFailed, Sink, Source, Word, WriteFailed,
    is_kept, next_line, write_all, write_line, write_malformed, write_refused,
};
pub use threads::{Keep, Nothing, drive_sections, drive_threads};
