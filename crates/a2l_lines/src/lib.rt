//! What the program reads and writes: the addresses and spans that are asked for, the lines of
//! their answers, and the lines of `--units`.
#![tactic(auto)]

mod blocks;
mod contexts;
mod crew;
mod digits;
mod fault;
mod file;
mod input;
mod input_bytes;
mod laws;
mod listing;
mod options;
mod order;
mod output;
mod pieces;
mod plan;
mod pool;
mod replier;
mod reply;
mod report;
mod resources;
mod shares;
mod streams;
mod survey;
mod symbolizer;
mod text;
mod turns;
mod waves;
mod words;

pub use crew::Crew;
pub use fault::RunFault;
pub use file::{LoadFault, read_file};
pub use input::Input;
pub use laws::law_of_answers;
pub use listing::list_units;
pub use options::Options;
pub use order::in_order;
pub use output::write_all;
pub use pieces::BAD_ADDRESS;
pub use plan::Plan;
pub use pool::run_pool;
pub use resources::Resources;
pub use streams::{Failed, Sink, Source};
pub use symbolizer::{Status, symbolize};
pub use text::push_query;
pub use words::process_words;
