// Putting the parts of a workload file into a buffer, one after the other.
ghost use Rattle.std.specs.Prelude.{◌≡◌, ◌≤◌, length};
ghost use Rattle.rules.specs.Lawful.{Packed};
ghost use Rattle.workload.specs.Encoding.{note_bytes, record_bytes, type_bytes};
ghost use Rattle.writing.specs.Puts.{Adds, AllPacked, HasRoom, types_bytes};

use rules::state::State;
use workload::definition::Workload;

// A buffer, and how far it is written: the next byte goes to the place `at`.
#[derive(Drop)]
pub(crate) struct Writer<'a> {
    pub buffer: &'a mut [u8],
    pub at: usize,
}

// The record of a state.
fn record(state: State) -> [u8; 11]
    requires { Packed state }
    ensures { result ≡ record_bytes state }
{
    let State {
        item,
        code,
        operand,
        arc_count,
        arcs: [a0, a1, a2, a3],
    } = state;
    let [o0, o1, o2, o3] = operand.to_be_bytes();
    [item, code, o0, o1, o2, o3, arc_count, a0, a1, a2, a3]
}

impl Writer<'_> {
    // Copies bytes into the buffer.
    pub(crate) fn put(&mut self, bytes: &[u8])
        requires { HasRoom self.old bytes.now }
        ensures { Adds self.old bytes.now self.new }
    {
        let end = self.at + bytes.len();
        self.buffer[self.at..end].copy_from_slice(bytes);
        self.at = end;
    }

    // Puts a type: the number of its states, and their records.
    fn put_type(&mut self, states: &[State])
        requires few { length states.now ≤ 32 }
        requires packed { AllPacked states.now }
        requires room { HasRoom self.old (type_bytes states.now) }
        ensures { Adds self.old (type_bytes states.now) self.new }
    {
        self.put(&[states.len() as u8]);
        for &state in states {
            self.put(&record(state));
        }
    }

    // Puts the job types.
    pub(crate) fn put_types(&mut self, workload: &Workload)
        requires { HasRoom self.old (types_bytes workload.now) }
        ensures { Adds self.old (types_bytes workload.now) self.new }
    {
        for ty in workload.job_types() {
            self.put_type(ty.states.as_slice());
        }
    }

    // Puts the length of the note and the note.
    pub(crate) fn put_note(&mut self, note: &[u8])
        requires short { length note.now ≤ 1000 }
        requires room { HasRoom self.old (note_bytes note.now) }
        ensures { Adds self.old (note_bytes note.now) self.new }
    {
        let length = note.len() as u16;
        self.put(&length.to_be_bytes());
        self.put(note);
    }
}
