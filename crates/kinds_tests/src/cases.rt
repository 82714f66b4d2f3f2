// What an act makes of a value and a register.
use kinds::kind::Kind;
use std::fmt::Debug;
use std::process::Abort;

// A value, a code, an operand and a register; then the new value and the new register.
#[derive(Clone, Copy)]
pub struct Case<V>(pub V, pub u8, pub i32, pub i32, pub (V, i32));

pub fn check_all<K: Kind>(rt: &impl Abort, cases: &[Case<K::Value>])
where
    K::Value: PartialEq + Debug,
{
    for case in cases {
        let Case(value, code, operand, register, pair) = *case;
        assert_eq!(rt; K::act(value, code, operand, register), pair);
    }
}
