//! Laws over the definitions of what a session packs and loads.
pub use awk_readback::packed_reads_back;
