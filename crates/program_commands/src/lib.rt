//! The commands on programs: `check`, `compile`, `go`, `turn` and `profile`. Each reads its files
//! and makes a plan; the top call carries it out.
#![tactic(auto)]

mod checking;
mod compiling;
mod going;
mod profiling;
mod turning;

pub use checking::check;
pub use compiling::compile_file;
pub use going::go;
pub use profiling::profile;
pub use store_report::Probes;
pub use turning::turn;
