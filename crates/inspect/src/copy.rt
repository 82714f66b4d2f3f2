// Writing a file again.
use crate::refusal::refuse;
use anyhow::anyhow;
use std::fs;
use workload::definition::Workload;
use writing::refusal::TripRefusal;
use writing::trips::read_and_write;

// Saves the copy once its bytes are found equal to those of the file, and tells so.
fn save(rt: &HostRuntime, file: &[u8], copy: &[u8], out: &str) -> anyhow::Result<()> {
    if copy != file {
        return Err(anyhow!("the copy differs from the file"));
    }
    if let Err(error) = fs::write(rt, out, copy) {
        eprintln!(rt; "cannot write {out}: {error}")?;
        return Err(anyhow!("the copy is not written"));
    }
    let count = copy.len();
    println!(rt; "copied {count} bytes to {out}, equal byte for byte")?;
    Ok(())
}

// Reads the file, writes it again into a buffer of its length and from there to the path `out`.
pub fn copy_file(rt: &HostRuntime, file: &[u8], out: &str) -> anyhow::Result<()> {
    let mut workload = Workload::start(rt.alloc())?;
    let mut buffer = vec![in rt.alloc(); 0; file.len()]?;
    match read_and_write(rt.alloc(), file, &mut workload, buffer.as_mut_slice()) {
        Ok(_) => save(rt, file, buffer.as_slice(), out),
        Err(TripRefusal::Reading(fault)) => refuse(rt, fault),
        // the buffer is as long as the file
        Err(TripRefusal::Writing(_)) => unreachable(),
    }
}

#[cfg(test)]
mod tests {
    use super::*;
    use std::test::Fail;

    // one item, one code, one type of one state, no note
    const SMALL: &[u8] = b"TLW\0\x01\x01\x01\x01\xff\x01\0\0\0\0\0\0\0\0\0\0\0\0\0";

    #[test]
    fn a_copy_is_saved(rt: HostRuntime) -> Result<(), Fail> {
        copy_file(&rt, SMALL, "copy.tlw")?;
        let saved = fs::read(&rt, "copy.tlw")?;
        fs::remove_file(&rt, "copy.tlw")?;
        assert_eq!(rt; saved.as_slice(), SMALL);
        Ok(())
    }

    #[test]
    fn a_refused_file_is_not_saved(rt: HostRuntime) {
        assert!(rt; copy_file(&rt, b"TLW", "refused.tlw").is_err());
        assert!(rt; fs::read(&rt, "refused.tlw").is_err());
    }
}
