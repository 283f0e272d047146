//! Reading and writing text line by line.

mod chunk;
mod device;
mod failures;
mod fault;
mod input;
mod output;
mod refusals;

pub use chunk::Chunk;
pub use device::{Sink, Source};
pub use failures::Failures;
pub use fault::DriveFault;
pub use input::{Ending, MAX_LINE, ReadFailed, is_kept, next_line};
pub use output::{Word, WriteFailed, write_all, write_line};
pub use refusals::{write_malformed, write_refused};
