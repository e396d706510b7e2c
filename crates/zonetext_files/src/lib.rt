//! Files block by block and written together; zone files and the files that they include, entry by
//! entry. A part of the program `zonetext`.
#![tactic(auto)]

pub mod blocks;
pub mod data_buffer;
pub mod file_lines;
pub mod file_part;
pub mod files;
pub mod generated;
pub mod include_error;
pub mod journals;
pub mod lines;
pub mod open_file;
mod pair;
pub mod part_files;
pub mod progress;
pub mod root_path;
pub mod shown;
pub mod stop;
pub mod zone_files;
