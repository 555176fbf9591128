//! The outside: desks, from which files are read by their names, and sinks, which take bytes.
//!
//! # What it is for
//!
//! The layers above read and write through the traits [`Desk`] and [`Sink`] and the call [`write_all`]. They may use
//! what these promise of every desk and sink, and nothing of one implementation:
//!
//! - a read answers at most as many bytes as were asked for, and where the desk tells its files the first ones of the
//!   named file;
//! - after [`write_all`] the sink has taken the whole piece and met no fault, or it has taken a prefix of it and its
//!   faults rose;
//! - a desk that is steady counts no fault, and a sink with room for the piece takes it.
//!
//! [`BufferedSink`] gathers small pieces in front of a lent sink. It is a sink whose bytes are those of the lent one
//! with what waits behind them. [`FolderDesk`] and [`StreamSink`] are the real outside, for `main`. [`MemoryDesk`] and
//! [`MemorySink`] say exactly which of their calls fail, for tests. [`NullSink`] keeps nothing.
//!
//! # What a contract sees
//!
//! Of a sink, what it took, its faults and its room. That no call changes which sink was lent, nor takes bytes back
//! from it, is what the meanings `lent` and `passed` of a sink say.
//!
//! All files of `specs/` are meaning: `Desk`, `Sink` and `Faults` of the traits; `MemoryDesk`, `MemorySink`,
//! `StreamSink` and `BufferedSink` of the implementations of these names, `Failing` of both in memory. For the layers
//! above are `Uses` (what a call did to a desk or a sink), `Lines` (what a call that writes lines did to a sink),
//! `Asked` (what a writer does to its output, by which texts it is asked for) and `Stops` (how a writing ends).
//! [`Halt`] says why one stopped.
//!
//! # What is proved
//!
//! Each implementation keeps what its trait promises. After [`BufferedSink::flush`] nothing waits, and after a failure
//! the lent sink has the first bytes of what was written.
//!
//! # What is only tested
//!
//! [`FolderDesk`] on a real file and on a name that isn't there, and [`StreamSink`] over a writer that takes nothing:
//! by `test_command::outside`. That a file holds what was read, or that a stream keeps what was written, is neither
//! proved nor tested.
#![tactic(auto)]

mod buffered_sink;
mod desk;
mod failing;
mod folder_desk;
mod halt;
mod memory_desk;
mod memory_sink;
mod null_sink;
mod sink;
mod stream_sink;
mod writing;

pub use buffered_sink::BufferedSink;
pub use desk::{Desk, DeskError};
pub use folder_desk::FolderDesk;
pub use halt::Halt;
pub use memory_desk::MemoryDesk;
pub use memory_sink::MemorySink;
pub use null_sink::NullSink;
pub use sink::{Sink, SinkError, write_all};
pub use stream_sink::StreamSink;
pub use writing::{Text, write_text};
