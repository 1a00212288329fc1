// Laws of what a run writes: functions that call only other laws, and whose contract is the law.
ghost use Rattle.std.specs.Prelude.{◌≡◌, ℕ, List, Option, None};
ghost use Rattle.pc_faults.specs.declared.status.Status.{Status};
ghost use Rattle.pc_source.specs.Sink.{SinkChange};
ghost use Rattle.pc_source.specs.Task.{ForBytes, first_fault};
ghost use Rattle.pc_words.specs.Words.{asked_in, request_in};
ghost use Rattle.pc_app.specs.Tasks.{task_of, tells_floods_in};
ghost use Rattle.run_laws.specs.Undisturbed.{EndAlike, EndsUndisturbed};

use combo::laws::longest_runs_exist;
use cover::laws::covered_lists_exist;
use enumerate::laws::lists_exist;
use kick_file::laws::texts_are_read_as_they_spell;
use pc_path::laws::bad_after_is_at_the_longest_front;
use pc_selfrun::laws::column_problems_are_fit;
use pc_source::laws::fields_are_read_as_they_are_asked;
use percent::laws::good_is_decided;
use queue_pattern::laws::texts_without_a_fault_have_a_pattern;
use well::laws::texts_without_fault_are_rows;

/// If neither the words nor the bytes that the command sees have a fault, it has an output, whatever number of floods
/// was made.
pub fn outputs_exist()
    ensures { (words : List (List ℕ)) (bytes : List ℕ) (floods : ℕ) → first_fault (task_of words) bytes ≡ None
        → (output : List ℕ) × (task_of words).IsOutput bytes floods output }
{
    // The laws from which this one follows.
    texts_are_read_as_they_spell();
    texts_without_fault_are_rows();
    fields_are_read_as_they_are_asked();
    texts_without_a_fault_have_a_pattern();
    lists_exist();
    bad_after_is_at_the_longest_front();
    covered_lists_exist();
    longest_runs_exist();
    column_problems_are_fit();
    good_is_decided();
}

/// How many bytes each read moves changes nothing. Take two runs of the same words over sources with the same bytes, in
/// which no read or write failed and memory did not run out. They end with the same status and the same output. If the
/// number of floods is written, each run writes its own number at the end.
pub fn reads_of_any_size_end_alike()
    ensures { (words : List (List ℕ)) (left : Option (List ℕ)) → ForBytes (task_of words) left
        (λ bytes. (floods others : ℕ) (sink sinks : SinkChange) (one other : Status)
        → EndsUndisturbed (task_of words) bytes floods sink one
        → EndsUndisturbed (task_of words) bytes others sinks other
        → EndAlike (tells_floods_in (asked_in (request_in words))) floods others one other sink sinks) }
{}
