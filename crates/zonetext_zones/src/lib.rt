//! The zones of folders, lists, `named.conf` and `nsd.conf`; the values of options, and
//! `.zonetext.toml`. A part of the program `zonetext`.
#![tactic(auto)]

pub mod arguments;
mod config_files;
pub mod file_places;
pub mod listed_zones;
mod named_once;
pub mod named_zones;
pub mod nsd_zones;
pub mod options;
pub mod part_option;
mod path_patterns;
pub mod settings;
pub mod times;
pub mod zone_folders;
pub mod zone_names;
pub mod zone_sources;
