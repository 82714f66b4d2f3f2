// Reading a workload file, and handing out its note.
ghost use Rattle.std.specs.Prelude.{◌≡◌, ◌+◌, ◌<◌, ◌≤◌, [], length, take, drop, MatchOption, MatchResult};
ghost use Rattle.workload.specs.Files.{Filled, NotRead, contents_of};
ghost use Rattle.workload.specs.Reads.{Accepted, FileLaws, Refused};
ghost use Rattle.workload.specs.Small.{SmallFiles};

use crate::definition::Workload;
use crate::fault::Fault;
use crate::read::Rest;
use crate::row::TypeRow;
use rules::tree::LockTree;
use std::alloc::Global;

// Where the note of a file stands.
#[derive(Clone, Copy, PartialEq, Eq, Debug)]
pub struct NoteSpan {
    pub place: usize,
    pub length: usize,
}

// The parts of a file that has no fault, but for its job types.
#[derive(Drop)]
struct FileParts<'a> {
    lock: LockTree<'a>,
    code_count: u8,
    note: &'a [u8],
}

// No file holds two workloads or notes, has two first faults, or both; an accepted one that is cut short or goes on is refused.
pub fn file_laws_stand()
    ensures { FileLaws }
{}

// A small file is read; cut short, or with a byte too many, it is refused.
pub fn small_files_stand()
    ensures { SmallFiles }
{}

// Tests a whole file, with no need of memory, and takes it apart; its job types go into an empty row.
fn survey<'a>(file: &'a [u8], types: &mut TypeRow) -> Result<FileParts<'a>, Fault>
    requires { types.old ≡ [] }
    ensures { MatchResult result (λ p. Accepted file.now (contents_of p types.new)) (λ f. Refused file.now f) }
{
    let mut rest = Rest::of(file);
    let sizes = rest.header()?;
    let lock = rest.parents(sizes.items)?;
    rest.job_types(sizes, types)?;
    let note = rest.note()?;
    Ok(FileParts {
        lock,
        code_count: sizes.codes,
        note,
    })
}

// Reads a file into a workload of its own, for a caller who has none yet, and answers where its note stands.
// All tests come before memory is asked for, so that want of memory tells of a file without a fault.
pub fn load(heap: Global, file: &[u8]) -> Result<(Workload, NoteSpan), Fault>
    ensures { MatchResult result (λ p. Filled file.now p.0 p.1) (λ f. NotRead file.now f) }
{
    let mut types = TypeRow::empty();
    let parts = survey(file, &mut types)?;
    let workload = Workload::of_parts(heap, &parts.lock, parts.code_count, types.as_slice())?;
    let length = parts.note.len();
    let span = NoteSpan {
        place: file.len() - length,
        length,
    };
    Ok((workload, span))
}

// Reads a file into the workload and answers where its note stands. A file that is not read changes nothing.
pub fn read(heap: Global, file: &[u8], workload: &mut Workload) -> Result<NoteSpan, Fault>
    ensures { MatchResult result (λ s. Filled file.now workload.new s) (λ f. (workload.new ≡ workload.old) × NotRead file.now f) }
{
    let (loaded, span) = load(heap, file)?;
    *workload = loaded;
    Ok(span)
}

// The note of a file, or nothing where the span reaches past the file.
pub fn note(file: &[u8], span: NoteSpan) -> Option<&[u8]>
    ensures { MatchOption result (length file.now < span.place + span.length) (λ n. (span.place + span.length ≤ length file.now) × (n.now ≡ take span.length (drop span.place file.now))) }
{
    let rest = file.get(span.place..)?;
    rest.get(..span.length)
}
