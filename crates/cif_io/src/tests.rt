//! What the files and the standard streams of the system do when they are run.

use super::*;
use std::fs;
use std::test::Fail;

#[test]
fn a_file_of_the_system_is_read_back(rt: HostRuntime) -> Result<(), Fail> {
    let alloc = rt.alloc();
    let name = "cif_io_read_back.txt";
    let long: Vec<u8> = (0..20000u32).map(|i| (i % 251) as u8).collect(alloc)?;
    let mut files = HostFiles::new(&rt);
    let mut into = vec![in alloc; 9]?;
    for text in [b"some text".as_slice(), long.as_slice()] {
        fs::write(&rt, name, text)?;
        let limit = text.len() as u64;
        assert_eq!(rt; files.read(name, limit, &mut into), Ok(()));
        assert_eq!(rt; into.as_slice(), text);
        let limit = limit.saturating_sub(1);
        assert_eq!(rt;
            files.read(name, limit, &mut into),
            Err(FileErr::TooBig { limit })
        );
        assert_eq!(rt; into.as_slice(), text);
    }
    fs::remove_file(&rt, name)?;
    assert_eq!(rt; files.read(name, 9, &mut into), Err(FileErr::Failed));
    Ok(())
}

#[test]
fn the_standard_streams_take_a_piece(rt: HostRuntime) {
    let mut out = HostSink::out(&rt);
    assert_eq!(rt; put_all(&mut out, b"out\n"), Ok(()));
    let mut err = HostSink::err(&rt);
    assert_eq!(rt; put_all(&mut err, b"err\n"), Ok(()));
}
