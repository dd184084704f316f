//! What the commands that run a program share: its image, its settings, and what their plans report
//! at the end of a run. They begin with `ready` or `input_fields` of run_settings, and go on with
//! `compiled_image`.
#![tactic(auto)]

mod compiled;

pub use compiled::{MOST_COMPILED, compiled_image};
pub use program_codegen::compile;
pub use run_settings::{
    InputField, LoadError, Ready, RunSetting, Shelf, SourceError, check_limits, input_fields,
    judge, limits, load, load_more, pieces, read_input, ready,
};
