// What no clause says: that calls of a host in memory succeed.
mod lines;
mod listen;
mod store;
