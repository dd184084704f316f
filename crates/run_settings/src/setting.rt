// What a run of a program is made with.
ghost use Rattle.std.specs.Prelude.{◌<◌, ◌^◌};
ghost use Rattle.roopl_judge.specs.rpp_tree.Views.{source_of};
ghost use Rattle.roopl_judge.specs.rpp_words.Limits.{IsLimits};
ghost use Rattle.roopl_semantics.specs.Source.{IsValid};

use command_plan::Plan;
use roopl_judge::Checked;
use roopl_semantics::{Input, Limits};

/// What a run is made with: the program, the sizes of heap and stack, the input, and the number of
/// steps.
#[derive(Drop)]
pub struct RunSetting {
    pub checked: Checked,
    pub limits: Limits,
    pub input: Input,
    pub bound: u64,
    ghost in_range: { IsLimits limits },
    ghost valid: { IsValid (source_of checked) input.words.items },
    ghost short: { bound < 2 ^ 63 },
}

/// What is found about texts that are to be run: a plan that reports why they are not, or what
/// their run is made with.
#[derive(Drop)]
pub enum Ready {
    Refused(Plan),
    Runs(RunSetting),
}
