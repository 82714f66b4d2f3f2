// The readers of a workload file's fields. None asks for memory, so that a file is tested whole before any is.
ghost use Rattle.std.specs.Prelude.{◌≡◌, ℕ, ◌+◌, ◌-◌, ◌<◌, ◌≤◌, [], length, IfOk, Ok, Err, Decides, MatchOption, MatchResult};
ghost use Rattle.workload.specs.Format.{RightArc, WrongByte};

use crate::fault::Fault;
use crate::row::{StateRow, TypeRow};
use rules::state::State;
use rules::tree::LockTree;
use rules::ways::first_stray;

// How many items, types and codes a workload has.
#[derive(Clone, Copy)]
pub(crate) struct Sizes {
    pub items: u8,
    pub types: u8,
    pub codes: u8,
}

// What the numbers of a state's record lie below.
#[derive(Clone, Copy)]
struct Limits {
    items: u8,
    codes: u8,
    states: u8,
}

impl Limits {
    // Whether the arc byte at j names a state, or is not used and 0: one comparison, since each record has four.
    fn right_arc(self, count: u8, j: usize, arc: u8) -> bool
        ensures { Decides result (RightArc self.states count j arc) }
    {
        let limit = if j < count as usize { self.states } else { 1 };
        arc < limit
    }

    // The first wrong byte of a record, counted from 0.
    fn wrong_byte(self, state: State) -> Option<usize>
        ensures { MatchOption result ((k : ℕ) → WrongByte self.items self.codes self.states state k → ⊥) (λ k. (k < 11) × WrongByte self.items self.codes self.states state k × ((q : ℕ) → q < k → WrongByte self.items self.codes self.states state q → ⊥)) }
    {
        if state.item >= self.items {
            return Some(0);
        }
        if state.code >= self.codes {
            return Some(1);
        }
        if state.arc_count > 4 {
            return Some(6);
        }
        for (j, arc) in state.arcs.iter().enumerate() {
            if !self.right_arc(state.arc_count, j, *arc) {
                return Some(7 + j);
            }
        }
        None
    }
}

// What is left of a file to read, and the place at which the file ends. A reader takes the bytes of its field.
#[derive(Drop)]
pub(crate) struct Rest<'a> {
    bytes: &'a [u8],
    end: usize,
    ghost within: { length bytes.now ≤ end },
}

impl<'a> Rest<'a> {
    ghost use Rattle.workload.specs.Readers.{Gives};
    ghost use Rattle.workload.specs.Reads.{Header, Note, Parents, Range, Several, Sign, StateRecord, TypePart};

    // A whole file.
    pub(crate) fn of(file: &'a [u8]) -> Rest<'a>
        ensures bytes { result.bytes.now ≡ file.now }
        ensures end { result.end ≡ length file.now }
    {
        Rest {
            bytes: file,
            end: file.len(),
        }
    }

    // The place in the file of byte i of those that are left.
    fn place(&self, i: usize) -> usize
        requires { i ≤ length self.now.bytes.now }
        ensures { result ≡ self.now.end - length self.now.bytes.now + i }
    {
        self.end - self.bytes.len() + i
    }

    // Reads fixed bytes: the mark or the version.
    fn sign(&mut self, sign: &[u8]) -> Result<(), Fault>
        ensures { Gives (Sign sign.now) (λ _. sign.now) self.old self.new result }
    {
        if self.bytes.len() < sign.len() {
            return Err(Fault::Missing(self.end));
        }
        let Some(rest) = self.bytes.strip_prefix(sign) else {
            return Err(Fault::Mark(self.place(0)));
        };
        self.bytes = rest;
        Ok(())
    }

    // Reads a count from 1 to `high`.
    fn count(&mut self, high: u8) -> Result<u8, Fault>
        ensures range { IfOk result (λ n. (1 ≤ n) × (n ≤ high)) }
        ensures answer { Gives (Range high) (λ n. n) self.old self.new result }
    {
        let [count, rest @ ..] = self.bytes else {
            return Err(Fault::Missing(self.end));
        };
        if *count < 1 || *count > high {
            return Err(Fault::Count(self.place(0)));
        }
        self.bytes = rest;
        Ok(*count)
    }

    // Reads the mark, the version and the three counts.
    pub(crate) fn header(&mut self) -> Result<Sizes, Fault>
        ensures range { IfOk result (λ s. (s.items ≤ 64) × (s.types ≤ 8)) }
        ensures answer { Gives Header (λ s. s) self.old self.new result }
    {
        self.sign(b"TLW")?;
        self.sign(&[0, 1])?;
        let items = self.count(64)?;
        let types = self.count(8)?;
        let codes = self.count(255)?;
        Ok(Sizes {
            items,
            types,
            codes,
        })
    }

    // Reads the parents of n items, which have to make a tree.
    pub(crate) fn parents(&mut self, n: u8) -> Result<LockTree<'a>, Fault>
        requires { n ≤ 64 }
        ensures { Gives (Parents n) (λ lock. lock.tree.parents.now) self.old self.new result }
    {
        let Some((parents, rest)) = self.bytes.split_at_checked(n as usize) else {
            return Err(Fault::Missing(self.end));
        };
        let lock = match LockTree::of(parents) {
            Ok(lock) => lock,
            Err(i) => return Err(Fault::Tree(self.place(i))),
        };
        self.bytes = rest;
        Ok(lock)
    }

    // Reads one state's record and leaves the rest of the file to the next.
    fn record(&mut self, limits: Limits) -> Result<State, Fault>
        ensures { Gives (StateRecord limits.items limits.codes limits.states) (λ s. s) self.old self.new result }
    {
        let [item, code, o0, o1, o2, o3, count, a0, a1, a2, a3, rest @ ..] = self.bytes else {
            return Err(Fault::Missing(self.end));
        };
        let state = State {
            item: *item,
            code: *code,
            operand: i32::from_be_bytes([*o0, *o1, *o2, *o3]),
            arc_count: *count,
            arcs: [*a0, *a1, *a2, *a3],
        };
        if let Some(k) = limits.wrong_byte(state) {
            return Err(Fault::Record(self.place(k)));
        }
        self.bytes = rest;
        Ok(state)
    }

    // Reads as many records as a type has states into an empty row. The caller gives the rows here and below,
    // since each is too large to be handed on.
    fn records(&mut self, limits: Limits, states: &mut StateRow) -> Result<(), Fault>
        requires few { limits.states ≤ 32 }
        requires empty { states.old ≡ [] }
        ensures { Gives (λ end. Several (StateRecord limits.items limits.codes limits.states end) limits.states) (λ _. states.new) self.old self.new result }
    {
        for _s in 0..limits.states {
            states.push(self.record(limits)?);
        }
        Ok(())
    }

    // Reads one job type into an empty row: the number of its states, their records, and whether they hang together.
    fn job_type(&mut self, sizes: Sizes, states: &mut StateRow) -> Result<(), Fault>
        requires { states.old ≡ [] }
        ensures { Gives (TypePart sizes.items sizes.codes) (λ _. states.new) self.old self.new result }
    {
        let count = self.count(32)?;
        let limits = Limits {
            items: sizes.items,
            codes: sizes.codes,
            states: count,
        };
        self.records(limits, states)?;
        if let Some(s) = first_stray(states.as_slice()) {
            return Err(Fault::Stray(self.place(0) - 11 * (count as usize - s)));
        }
        Ok(())
    }

    // Reads the job types into an empty row.
    // One function with `records` would take the reader of one part as a closure, for a loop of one line.
    pub(crate) fn job_types(&mut self, sizes: Sizes, types: &mut TypeRow) -> Result<(), Fault>
        requires few { sizes.types ≤ 8 }
        requires empty { types.old ≡ [] }
        ensures { Gives (λ end. Several (TypePart sizes.items sizes.codes end) sizes.types) (λ _. types.new) self.old self.new result }
    {
        for _t in 0..sizes.types {
            let mut states = StateRow::empty();
            self.job_type(sizes, &mut states)?;
            types.push(states);
        }
        Ok(())
    }

    // Reads the note, which ends the file.
    pub(crate) fn note(self) -> Result<&'a [u8], Fault>
        ensures { MatchResult result (λ n. Note self.entry.end self.entry.bytes.now (Ok (n.now, []))) (λ f. Note self.entry.end self.entry.bytes.now (Err f)) }
    {
        let [high, low, note @ ..] = self.bytes else {
            return Err(Fault::Missing(self.end));
        };
        let length = usize::from(u16::from_be_bytes([*high, *low]));
        if length > 1000 {
            return Err(Fault::Tail(self.place(0)));
        }
        if note.len() < length {
            return Err(Fault::Missing(self.end));
        }
        if note.len() > length {
            return Err(Fault::Tail(self.place(2 + length)));
        }
        Ok(note)
    }
}
