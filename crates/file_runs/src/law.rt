//! Laws of the definitions that contracts cite.

ghost use Rattle.file_runs.specs.Owed.{ReportsCommandNothing, SoundRunsAreNotRefused};

use configuration_json::configurations_are_one;
use file_derivation::sound_are_not_told;
use telling::reports_command_nothing;

/// Where a run is told what it is given, and that is sound, nothing is refused.
pub fn sound_runs_are_not_refused()
    ensures { SoundRunsAreNotRefused }
{
    configurations_are_one();
    sound_are_not_told();
}

/// What a run writes to standard error has no character that commands a terminal.
pub fn runs_command_nothing()
    ensures { ReportsCommandNothing }
{
    reports_command_nothing();
}
