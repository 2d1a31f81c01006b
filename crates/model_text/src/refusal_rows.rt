// Rows of refused models: each kind at its line, and which counts where several refuse.
#![tactic(auto, unfolding(crate::specs::Opened::sections_of, crate::specs::Opened::tokens, crate::specs::Opened::written_rule, crate::specs::Opened::rule_of_text, crate::specs::ModelOf::model_of))]

ghost use Rattle.model_text.specs.Kinds.{KindsAreShown};
ghost use Rattle.model_text.specs.Phases.{PhasesFollow};
ghost use Rattle.model_text.specs.Steps.{StepsFollow};
ghost use Rattle.model_text.specs.Long.{LongFilesAreRefused};
ghost use Rattle.model_text.specs.Limits.{LimitsAreRefused};
ghost use Rattle.model_text.specs.LineBytes.{BytesAreLimited};

/// Kinds of refusals, each at its line.
pub fn kinds_are_shown()
    ensures { KindsAreShown }
{}

/// Where two phases refuse, the earlier one counts, also where its line is the greater.
pub fn phases_follow()
    ensures { PhasesFollow }
{}

/// Within a phase the first that is met counts, or the least line, as the phase says.
pub fn steps_follow()
    ensures { StepsFollow }
{}

/// Files of more than `MAX_FILE_BYTES` bytes are refused, whatever they hold.
pub fn long_files_are_refused()
    ensures { LongFilesAreRefused }
{}

/// More than 65536 inputs or outputs of top are refused, and more than 65536 paths, whatever files
/// there are.
pub fn limits_are_refused()
    ensures { LimitsAreRefused }
{}

/// A line holds bytes from 32 to 126 and tabs, and none of the bytes next to them.
pub fn bytes_are_limited()
    ensures { BytesAreLimited }
{}
