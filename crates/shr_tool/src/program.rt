//! All that the program does, over any bay, source and sink.

ghost use Rattle.std.specs.Prelude.{◌≡◌, ◌⊎◌, ◌<◌, ◌≤◌, ◌^◌, ℕ, true, false, length, drop, map, codes, string_bytes, Some, None};
ghost use Rattle.rack.specs.Seen.{Rose};
ghost use Rattle.shr_tool.specs.declared.status.Status.TheVariants.{Words, Memory};
ghost use Rattle.shr_words.specs.declared.forms.Form.TheVariants.{Layout, Create, Serve, Import, Export, Status as StatusOf, Examine, Trial};
ghost use Rattle.shr_words.specs.LayoutWords.{units_asked};
ghost use Rattle.shr_words.specs.Forms.{before_names, form_of as form_in};
ghost use Rattle.shr_tool.specs.LayoutText.{Prints};
ghost use Rattle.shr_tool.specs.Forms.{reads_input, uses_disks};
ghost use Rattle.shr_script.specs.Reply.{refused_line};
ghost use Rattle.shr_tool.specs.Limits.{KeepsLimit};
ghost use Rattle.shr_tool.specs.Run.{PoolOutcome, CreateOutcome};
ghost use Rattle.shr_tool.specs.Saying.{Ended, Says};
ghost use Rattle.shr_tool.specs.Examining.{ExamineOutcome};
ghost use Rattle.shr_tool.specs.Complete.{Completes, NothingFails};

use crate::examining::examine_image;
use crate::layout::print_layout;
use crate::making::create;
use crate::opening::{Task, open_for};
use crate::saying::{refuse, refuse_words};
use crate::status::Status;
use io_ends::{Sink, Source};
use pool::Birth;
use rack::{Bay, Rack};
use shr_words::{Form, WordsFault, form_of};
use std::alloc::Global;

/// Does what the words ask for, and answers the status that the program ends with.
pub fn run<B: Bay, I: Source, O: Sink>(
    alloc: Global,
    words: &[String],
    bay: &mut B,
    input: &mut I,
    out: &mut O,
    birth: &Birth,
) -> u8
    // At entry nothing is attached.
    requires { (B.seen bay.old).disks ≡ 0 }

    // The form of the words decides what is done. Want of memory to parse them is said, and nothing else is done.
    ensures serve { form_in (map string_bytes words.now) ≡ Some Serve → I.told input.old → O.told out.old
        → Ended result (PoolOutcome B.seen B.shelf B.runs bay.old bay.new Task.Serve (map string_bytes (drop 1 words.now)) (I.left input.old) (I.left input.new) (O.taken out.old) (O.taken out.new)) }

    ensures import { form_in (map string_bytes words.now) ≡ Some Import → I.told input.old → O.told out.old
        → Ended result (PoolOutcome B.seen B.shelf B.runs bay.old bay.new Task.Import (map string_bytes (drop 1 words.now)) (I.left input.old) (I.left input.new) (O.taken out.old) (O.taken out.new)) }

    ensures export { form_in (map string_bytes words.now) ≡ Some Export → O.told out.old
        → Ended result (PoolOutcome B.seen B.shelf B.runs bay.old bay.new Task.Export (map string_bytes (drop 1 words.now)) (I.left input.old) (I.left input.new) (O.taken out.old) (O.taken out.new)) }

    ensures status { form_in (map string_bytes words.now) ≡ Some StatusOf → O.told out.old
        → Ended result (PoolOutcome B.seen B.shelf B.runs bay.old bay.new Task.Show (map string_bytes (drop 1 words.now)) (I.left input.old) (I.left input.new) (O.taken out.old) (O.taken out.new)) }

    ensures trial { (seed : ℕ) → form_in (map string_bytes words.now) ≡ Some (Trial seed) → O.told out.old
        → Ended result (PoolOutcome B.seen B.shelf B.runs bay.old bay.new (Task.Trial seed) (map string_bytes (drop 2 words.now)) (I.left input.old) (I.left input.new) (O.taken out.old) (O.taken out.new)) }

    ensures create { (extent : ℕ) → form_in (map string_bytes words.now) ≡ Some (Create extent) → O.told out.old
        → Ended result (CreateOutcome B.seen B.shelf B.runs bay.old bay.new (map string_bytes (drop 2 words.now)) extent birth.now (O.taken out.old) (O.taken out.new)) }

    ensures layout { (request : _) → form_in (map string_bytes words.now) ≡ Some (Layout request) → O.told out.old
        → Ended result (λ status. Prints (O.told out.old) status (units_asked request) (O.taken out.old) (O.taken out.new)
        ⊎ Says Memory (refused_line (codes "memory")) (O.taken out.old) (O.taken out.new) status) }

    ensures examine { form_in (map string_bytes words.now) ≡ Some Examine → O.told out.old
        → Ended result (ExamineOutcome (B.seen bay.old) (B.shelf bay.old) (B.seen bay.new) (B.shelf bay.new)
        (map string_bytes (drop 1 words.now)) (O.taken out.old) (O.taken out.new)) }

    ensures wrong { form_in (map string_bytes words.now) ≡ None → O.told out.old
        → Ended result (λ status. Says Words (refused_line (codes "words")) (O.taken out.old) (O.taken out.new) status
        ⊎ Says Memory (refused_line (codes "memory")) (O.taken out.old) (O.taken out.new) status) }

    // The program says that the words are wrong exactly where they are, unless there is no memory to parse them or no output.
    ensures words { result ≡ 2 → form_in (map string_bytes words.now) ≡ None }

    // Where nothing is against it, what the words ask for is done, unless memory was wanting or a sector or a work of the pool is spent.
    ensures complete { (form : _) → form_in (map string_bytes words.now) ≡ Some form → O.told out.old → (reads_input (Some form) ≡ true → I.told input.old)
        → NothingFails form (map string_bytes (drop (before_names form) words.now)) (B.shelf bay.old) (B.shelf bay.new)
        (I.faults input.old) (I.faults input.new) (O.faults out.old) (O.faults out.new)
        → Ended result (Completes B.seen B.shelf B.runs bay.old bay.new form (map string_bytes (drop (before_names form) words.now)) (I.left input.old) (I.left input.new) (O.taken out.old) (O.taken out.new)) }

    // `layout` and what is refused don't touch the bay, and only `serve` and `import` touch the input.
    ensures untouched { uses_disks (form_in (map string_bytes words.now)) ≡ false → bay.new ≡ bay.old }
    ensures unread { reads_input (form_in (map string_bytes words.now)) ≡ false → input.new ≡ input.old }

    // The limit of a script is answered exactly where more bytes were taken and no `quit` line ends before it.
    ensures script { result ≡ 3 → form_in (map string_bytes words.now) ≡ Some Serve }
    ensures limit { form_in (map string_bytes words.now) ≡ Some Serve → I.told input.old → KeepsLimit (result ≡ 3) (2 ^ 32) (I.left input.old) (I.left input.new) }

    // A fault of an end is answered only where its count rose.
    ensures source { result ≡ 4 → Rose (I.faults input.old) (I.faults input.new) }
    ensures sink { result ≡ 5 → Rose (O.faults out.old) (O.faults out.new) }
{
    let form = match form_of(alloc, words) {
        Ok(form) => form,
        Err(WordsFault::Wrong) => return refuse_words(out).code(),
        Err(WordsFault::Memory) => return refuse(out, b"memory", Status::Memory).code(),
    };
    let names = behind(words, 1);
    let seconds = birth.seconds;
    match form {
        Form::Layout { request } => print_layout(&request, out).code(),
        Form::Serve => open_for(alloc, bay, names, seconds, Task::Serve, input, out).code(),
        Form::Import => open_for(alloc, bay, names, seconds, Task::Import, input, out).code(),
        Form::Export => open_for(alloc, bay, names, seconds, Task::Export, input, out).code(),
        Form::Examine => examine_image(alloc, bay, names, out).code(),
        Form::Create { extent } => {
            create(alloc, bay, behind(words, 2), extent, birth, out).code()
        }
        Form::Status => open_for(alloc, bay, names, seconds, Task::Show, input, out).code(),
        Form::Trial { seed } => {
            let task = Task::Trial { seed };
            open_for(alloc, bay, behind(words, 2), seconds, task, input, out).code()
        }
    }
}

// The words behind the first ones.
fn behind(words: &[String], first: usize) -> &[String]
    requires { first ≤ length words.now }
    ensures { result.now ≡ drop first words.now }
{
    &words[first..]
}
