// All that the program prints, for a file and an input.
use std::alloc::Global;
use std::process::Abort;
use std::test::Fail;
use yard_text::report::report;

// Three items, 1 and 2 below 0. Type 0: at item 1 code 2, then at item 2 code 0; type 1: at item 1 code 0; type 2: at item 2 code 2.
const THREE_TYPES: &[u8] = b"TLW\0\x01\x03\x03\x04\xff\0\0\
    \x02\x01\x02\0\0\0\0\x01\x01\0\0\0\x02\0\0\0\0\0\0\0\0\0\0\
    \x01\x01\0\0\0\0\0\0\0\0\0\0\
    \x01\x02\x02\0\0\0\0\0\0\0\0\0\
    \0\0";

// One item, five codes, one type of one state.
const FIVE_CODES: &[u8] = b"TLW\0\x01\x01\x01\x05\xff\x01\0\0\0\0\0\0\0\0\0\0\0\0\0";

// That just this is printed.
fn prints(
    rt: &impl Abort,
    heap: Global,
    file: &[u8],
    input: &[u8],
    text: &str,
) -> Result<(), Fail> {
    assert_eq!(rt; report(heap, file, input)?.as_str(), text);
    Ok(())
}

#[test]
fn three_jobs_by_turns(rt: HostRuntime) -> Result<(), Fail> {
    prints(
        &rt,
        rt.alloc(),
        THREE_TYPES,
        b"0 10\n1 0\n2 7\n000001111222200000\n",
        "0L0 0L1 0W1 0G1 0R1 1L1 1W1 1R1 1F 2L2 2W2 2R2 2F 0L2 0R0 0W2 0R2 0F\n7 10 0\n0 10 7\n",
    )
}

#[test]
fn a_job_waits_for_its_holder(rt: HostRuntime) -> Result<(), Fail> {
    prints(
        &rt,
        rt.alloc(),
        THREE_TYPES,
        b"0 10\n1 0\n2 7\n0010001",
        "0L0 0L1 1X1.0 0W1 0G1 0R1 1L1\n- - -\n0 10 0\n",
    )
}

#[test]
fn begins_and_steps_are_refused(rt: HostRuntime) -> Result<(), Fail> {
    prints(
        &rt,
        rt.alloc(),
        THREE_TYPES,
        b"3 1\n2 -7\n255 0\n11110219",
        "0N11 2N11 1L2 1W2 1R2 1F 0N13 2N13 1N13 9N13\n- 0 -\n0 0 -7\n",
    )
}

#[test]
fn nothing_is_asked(rt: HostRuntime) -> Result<(), Fail> {
    prints(&rt, rt.alloc(), THREE_TYPES, b"", "\n- - -\n0 0 0\n")
}

#[test]
fn more_codes_than_a_tally_has(rt: HostRuntime) -> Result<(), Fail> {
    prints(
        &rt,
        rt.alloc(),
        FIVE_CODES,
        b"0 1\n0 2\n0 3\n0",
        "0N8 1N8 2N8 0N13\n- - -\n0\n",
    )
}

#[test]
fn refused_files(rt: HostRuntime) -> Result<(), Fail> {
    let heap = rt.alloc();
    prints(&rt, heap, b"", b"0 1\n", "N1.0\n")?;
    prints(&rt, heap, &THREE_TYPES[..59], b"0 1\n", "N1.59\n")?;
    prints(&rt, heap, b"TLX\0\x01", b"", "N2.0\n")?;
    prints(&rt, heap, b"TLW\0\x01\x41", b"", "N3.5\n")
}
