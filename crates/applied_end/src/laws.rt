// Laws that follow from the definitions: the functions do nothing, and their contracts are the laws.

ghost use Rattle.applied_end.specs.Step.{AllowedIsApplicable, RecordsAreLeft, StoringKeepsRecords};
ghost use Rattle.applied_end.specs.Text.{EndedReadsSame, FetchedIsHandedIn};
ghost use Rattle.applied_end.specs.End.{CarriedOutIsJudgedEnd, GoodPlanIsFinished, GoodPlanIsNeverRefused, GoodPlanIsTaken, OutputIsJudgedEnd};
ghost use Rattle.applied_end.specs.Run.{LeadsKeepsSound, OneLast, RunIsTaken, StartIsRead};
ghost use Rattle.applied_end.specs.Sound.{ReadIsSound, ReadReadsAgain, SoundReadsBack, StepKeepsSound};

use journal::a_file_shows_one_history;

/// A step that the rules allow can be taken in the status file.
pub fn an_allowed_step_can_be_taken()
    ensures { AllowedIsApplicable }
{}

/// Storing the status file changes no record.
pub fn storing_keeps_records()
    ensures { StoringKeepsRecords }
{}

/// What a step leaves of the status file has the records that it leaves by the rules.
pub fn a_step_leaves_the_records_of_the_rules()
    ensures { RecordsAreLeft }
{}

/// What is read of a text is sound: no two records have one name, and each stanza can be written and reads back.
pub fn what_is_read_is_sound()
    ensures { ReadIsSound }
{}

/// What a step that can be taken leaves of a sound status file is sound.
pub fn a_step_keeps_what_is_sound()
    ensures { StepKeepsSound }
{}

/// The text of a sound status file, where it is within the limit, is read as it.
pub fn what_is_sound_reads_back()
    ensures { SoundReadsBack }
{}

/// The text of what was read, where it is within the limit, is read as what was read is stored.
pub fn what_was_read_reads_again()
    ensures { ReadReadsAgain }
{}

/// A newline at the end of a stanza's text changes nothing of what it is read as in an index.
pub fn a_newline_at_the_end_changes_nothing()
    ensures { EndedReadsSame }
{}

/// Where the indices are read without refusal, the text that is fetched for a step hands in the stanza that the rules unpack.
pub fn what_is_fetched_is_handed_in()
    ensures { FetchedIsHandedIn }
{}

/// A run of the rules can be taken in the status file, and leads to the records of its end.
pub fn a_run_can_be_taken()
    ensures { RunIsTaken }
{}

/// Steps lead from a status file to one alone.
pub fn steps_lead_to_one_end()
    ensures { OneLast }
{}

/// Where steps lead from a sound status file, it is sound.
pub fn steps_keep_what_is_sound()
    ensures { LeadsKeepsSound }
{}

/// What the journal reads of the text of what was read is this, as it is stored.
pub fn the_start_is_what_was_read()
    ensures { StartIsRead }
{}

/// The text that the recorded steps of a good plan lead to is a status file with the records at the end of the run that the plan
/// was judged by, which is good; and where it is within the limit it is read as one.
pub fn the_output_is_the_judged_end()
    ensures { OutputIsJudgedEnd }
{}

/// The status text of a plan that is ready by the texts, and was carried out, is the end that it was judged by.
pub fn the_status_text_is_the_judged_end()
    ensures { CarriedOutIsJudgedEnd }
{}

/// After each beginning of a good plan its next recorded step can be taken.
pub fn a_good_plan_is_always_taken()
    ensures { GoodPlanIsTaken }
{}

/// E24 never stands against a step of a good plan, in a journal that has begun with it.
pub fn a_good_plan_is_never_refused()
    ensures { GoodPlanIsNeverRefused }
{}

/// E24 isn't why a good plan is left unfinished, in a journal that has begun with it.
pub fn a_good_plan_is_not_stopped()
    ensures { GoodPlanIsFinished }
{
    a_file_shows_one_history();
}
