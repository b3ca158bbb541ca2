//! Calls that merge, ask and write, writers that fail, of every command too, files without a standard input,
//! files that are replaced, and progress by a clock.
mod commands;
mod files;
mod layer_calls;
mod merge_calls;
mod output_files;
mod progress;
mod shard_rows;
mod writers;
