//! The streams of a run: a source, a stream and a sink that remember failures, and count their reads, the lines of
//! bytes, texts as one line shows them and in JSON, the line of a refusal, and the fault with which a run ends.
#![tactic(auto)]

mod escape;
mod fault;
mod filling;
pub mod json;
pub mod laws;
mod line;
mod number;
mod refusal;
mod sink;
mod stream;

pub use escape::{append_code_point, append_escaped};
pub use fault::RunFault;
pub use filling::Filling;
pub use line::{MAX_LINE, append_bytes, first_line, split_line, text_of};
pub use number::append_number;
pub use refusal::append_refusal;
pub use sink::Sink;
pub use stream::{MAX_READS, MAX_STREAM_READS, Source, Stream, make_room};
