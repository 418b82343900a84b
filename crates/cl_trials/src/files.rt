//! Real files, standard output and other writers, of which no contract tells what they hold.
use cl_ports::{DiskFiles, Failed, Files, ReadRefusal, Sink, StandardOutput};
use std::fs;
use std::test::Fail;

#[test]
fn a_file_of_16_mebibytes(rt: HostRuntime) -> Result<(), Fail> {
    let path = "cl_trials_longest.tmp";
    let bytes = vec![in rt.alloc(); b'x'; 16_777_216]?;
    fs::write(&rt, path, bytes.as_slice())?;
    let read = DiskFiles::new(rt.alloc(), &rt).read(path);
    assert!(rt; read.is_ok_and(|it| it.as_slice() == bytes.as_slice()));
    fs::remove_file(&rt, path)?;
    Ok(())
}

#[test]
fn a_file_of_one_byte_more(rt: HostRuntime) -> Result<(), Fail> {
    let path = "cl_trials_too_long.tmp";
    let bytes = vec![in rt.alloc(); b'x'; 16_777_217]?;
    fs::write(&rt, path, bytes.as_slice())?;
    let read = DiskFiles::new(rt.alloc(), &rt).read(path);
    assert!(rt; read.is_err_and(|it| it == ReadRefusal::TooLong { taken: 16_777_217 }));
    fs::remove_file(&rt, path)?;
    Ok(())
}

#[test]
fn a_missing_file(rt: HostRuntime) {
    let read = DiskFiles::new(rt.alloc(), &rt).read("cl_trials_missing.tmp");
    assert!(rt; read.is_err_and(|it| it == ReadRefusal::Failed));
}

#[test]
fn a_writer_takes_each_piece(rt: HostRuntime) {
    let mut written = Vec::new(rt.alloc());
    let mut sink = StandardOutput::new(&mut written);
    for piece in ["ab", "", "cd"] {
        assert_eq!(rt; sink.write(piece.as_bytes()), Ok(()));
    }
    assert_eq!(rt; written.as_slice(), b"abcd".as_slice());
}

// It keeps what it took.
#[test]
fn a_full_writer_fails(rt: HostRuntime) {
    let mut short = [0u8; 3];
    let mut sink = StandardOutput::new(short.as_mut_slice());
    assert_eq!(rt; sink.write(b"ab"), Ok(()));
    assert_eq!(rt; sink.write(b"cd"), Err(Failed));
    assert_eq!(rt; sink.write(b""), Ok(()));
    assert_eq!(rt; short.as_slice(), b"abc".as_slice());
}

#[test]
fn standard_output(rt: HostRuntime) {
    let mut sink = StandardOutput::new(rt.stdout());
    assert_eq!(rt; sink.write(b"written\n"), Ok(()));
}
