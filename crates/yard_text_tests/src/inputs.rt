// Inputs, and the calls that they ask for.
use std::alloc::Global;
use std::process::Abort;
use std::test::Fail;
use table::answer::Call;
use yard_text::input::asked;

// That the input asks for these calls, and then for the three collects.
fn asks(rt: &impl Abort, heap: Global, input: &[u8], right: &[Call]) -> Result<(), Fail> {
    let collects = [Call::Collect(0), Call::Collect(1), Call::Collect(2)];
    let calls = asked(heap, input)?;
    let mut expected = Vec::from_slice(heap, right)?;
    expected.extend_from_slice(&collects)?;
    assert_eq!(rt; calls.as_slice(), expected.as_slice());
    Ok(())
}

#[test]
fn three_begins_and_a_step_for_each_digit(rt: HostRuntime) -> Result<(), Fail> {
    asks(
        &rt,
        rt.alloc(),
        b"0 10\n1 0\n2 7\n012\n",
        &[
            Call::Begin(0, 0, 10),
            Call::Begin(1, 1, 0),
            Call::Begin(2, 2, 7),
            Call::Step(0),
            Call::Step(1),
            Call::Step(2),
        ],
    )
}

#[test]
fn a_fourth_line_is_read_as_steps(rt: HostRuntime) -> Result<(), Fail> {
    asks(
        &rt,
        rt.alloc(),
        b"255 -1\n007 08\n0 -0\n94 5\n",
        &[
            Call::Begin(0, 255, -1),
            Call::Begin(1, 7, 8),
            Call::Begin(2, 0, 0),
            Call::Step(9),
            Call::Step(4),
        ],
    )
}

#[test]
fn arguments_at_both_ends(rt: HostRuntime) -> Result<(), Fail> {
    asks(
        &rt,
        rt.alloc(),
        b"0 -2147483648\n1 2147483647\n2 2147483648\n012\n",
        &[
            Call::Begin(0, 0, -2_147_483_648),
            Call::Begin(1, 1, 2_147_483_647),
        ],
    )
}

#[test]
fn no_step_after_a_bad_second_line(rt: HostRuntime) -> Result<(), Fail> {
    asks(
        &rt,
        rt.alloc(),
        b"0 10\n1 x\n2 7\n012\n",
        &[Call::Begin(0, 0, 10)],
    )
}

#[test]
fn no_begin_without_a_whole_line(rt: HostRuntime) -> Result<(), Fail> {
    let inputs: [&[u8]; 9] = [
        b"",
        b"300 1\n",
        b"256 1\n",
        b"1 2",
        b"1  2\n",
        b"1 -\n",
        b"1 +2\n",
        b"1 -2147483649\n",
        b"12\n",
    ];
    for input in inputs {
        asks(&rt, rt.alloc(), input, &[])?;
    }
    Ok(())
}
