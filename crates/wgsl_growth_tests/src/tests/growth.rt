//! Calls with one growth of memory refused to them: they say that memory was wanting and change nothing, and made again
//! they give what they give.

mod compwise;
mod conversions;
mod copies;
mod laid_out;
mod lists;
mod references;
mod rows;
mod sessions;
mod types;
mod views;
