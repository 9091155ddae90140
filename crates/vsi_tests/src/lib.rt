//! The tests that neither rows nor transcripts hold: devices that fail mid-stream, and files that
//! change between two readings.
#![tactic(auto)]

#[cfg(test)]
mod cuts;
mod files;
