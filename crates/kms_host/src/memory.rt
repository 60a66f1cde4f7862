// A host in memory, which tells all of its calls as long as there is memory for them.
mod calls;
mod counter;
mod file;
mod host;
mod key_files;
mod log;
mod output;
mod random;
mod source;
mod store;

pub use host::MemoryHost;
