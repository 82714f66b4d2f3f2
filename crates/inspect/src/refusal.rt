// Why a file is refused, in one sentence.
use anyhow::anyhow;
use std::fmt;
use workload::fault::Fault;

// A fault as a person reads it.
#[derive(Clone, Copy)]
pub struct Refusal(pub Fault);

// What is wrong with the file, without number and place.
fn sentence(fault: Fault) -> &'static str {
    match fault {
        Fault::Missing(_) => "the file ends before this field does",
        Fault::Mark(_) => "the file does not begin with TLW and version 1",
        Fault::Count(_) => "a count is outside its range",
        Fault::Tree(_) => "the parents make no tree: this item never comes to one root",
        Fault::Record(_) => "this byte of a state's record is wrong",
        Fault::Stray(_) => "this state is not reached from state 0 or reaches no terminal state",
        Fault::Tail(_) => "the note is longer than 1,000 bytes, or bytes follow it",
        Fault::Memory => "there is not enough memory to read the file",
    }
}

impl fmt::Display for Refusal {
    fn fmt<W: fmt::Write>(&self, f: &mut fmt::Formatter<W>) -> fmt::Result {
        let text = sentence(self.0);
        match self.0.number_and_place() {
            Some((number, place)) => write!(
                f,
                "refused with number {number} at byte {place}: {text}"
            ),
            None => write!(f, "not read: {text}"),
        }
    }
}

// A refused file is told and ends the program with status 1.
pub fn refuse(rt: &HostRuntime, fault: Fault) -> anyhow::Result<()> {
    let refusal = Refusal(fault);
    println!(rt; "{refusal}")?;
    Err(anyhow!("the file is refused"))
}

#[cfg(test)]
mod tests {
    use super::*;
    use std::test::Fail;

    #[test]
    fn refusals_are_told(rt: HostRuntime) -> Result<(), Fail> {
        let cases = [
            (
                Fault::Missing(3),
                "refused with number 1 at byte 3: the file ends before this field does",
            ),
            (
                Fault::Mark(0),
                "refused with number 2 at byte 0: the file does not begin with TLW and version 1",
            ),
            (
                Fault::Count(5),
                "refused with number 3 at byte 5: a count is outside its range",
            ),
            (
                Fault::Tree(8),
                "refused with number 4 at byte 8: the parents make no tree: this item never comes to one root",
            ),
            (
                Fault::Record(20),
                "refused with number 5 at byte 20: this byte of a state's record is wrong",
            ),
            (
                Fault::Stray(21),
                "refused with number 6 at byte 21: this state is not reached from state 0 or reaches no terminal state",
            ),
            (
                Fault::Tail(30),
                "refused with number 7 at byte 30: the note is longer than 1,000 bytes, or bytes follow it",
            ),
            (
                Fault::Memory,
                "not read: there is not enough memory to read the file",
            ),
        ];
        for (fault, words) in cases {
            let refusal = Refusal(fault);
            let text = format!(in rt.alloc(); "{refusal}")?;
            assert_eq!(rt; text.as_str(), words);
        }
        Ok(())
    }
}
