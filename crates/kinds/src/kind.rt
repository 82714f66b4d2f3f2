ghost use Rattle.std.specs.Prelude.{◌≡◌, ℕ, ◌≤◌, ℤ};

// A kind of item: what its values are, how many operation codes it has, what each of them does, and how a value shows.
// A type stands for its kind: no value of it is needed.
pub trait Kind {
    type Value: Copy;

    // The number of operation codes.
    const CODES: u8;

    ghost CODES: { ℕ };

    // From a value, a code, an operand and a job's register to the new value and the new register.
    ghost acted: { Self.Value → ℕ → ℤ → ℤ → Self.Value × ℤ };

    // The number that a value shows as.
    ghost number: { Self.Value → ℤ };

    // The new value and the new register. Code, operand and register stay three arguments, here and in the stores:
    // each kind takes them apart at once.
    fn act(value: Self::Value, code: u8, operand: i32, register: i32) -> (Self::Value, i32)
        ensures { result ≡ acted value code operand register };

    fn show(value: &Self::Value) -> i64
        ensures { result ≡ number value.now };

    // A code at or above the number of codes changes neither part.
    ghost beyond: { (v : Self.Value) (code : ℕ) (operand register : ℤ) → CODES ≤ code → acted v code operand register ≡ (v, register) };
}

// What is said of a code that names no operation of a kind.
#[derive(Clone, Copy, Debug, PartialEq, Eq)]
pub(crate) struct NoOperation;
