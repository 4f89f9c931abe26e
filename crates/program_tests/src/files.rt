//! The engines over files, and what is told where one can't be opened or made.
use cli::{InFile, OutFile, serial_engine};
use devices::Watched;
use std::alloc::Global;
use std::fs::Permissions;
use std::io::{Read, Write};
use std::os::unix::fs::{PermissionsExt, symlink};
use std::rt::Files;
use std::test::Fail;
use std::{fs, io};

/// Writes a text byte by byte into the file of this path.
fn write_to<R: Files + AllocGlobal>(rt: &R, path: &str, text: &str) -> io::Result<()> {
    let mut file = OutFile::new(rt.alloc(), rt, path)?;
    for byte in text.bytes() {
        file.write_all(&[byte])?;
    }
    file.flush()
}

/// What the file of this path gives, two bytes at a time.
fn read_from<R: Files>(rt: &R, alloc: Global, path: &str) -> io::Result<Vec<u8>> {
    let mut file = InFile::new(rt, path);
    let mut bytes = Vec::new(alloc);
    let mut buffer = [0u8; 2];
    for _ in 0..100 {
        let count = file.read(&mut buffer)?;
        bytes.extend_from_slice(&buffer[..count])?;
    }
    Ok(bytes)
}

// A file that has a longer text is made anew, also where no byte is written.
#[test]
fn what_is_written_is_read(rt: HostRuntime) -> Result<(), Fail> {
    for text in ["abcde", "a", ""] {
        write_to(&rt, "out.nq", text)?;
        let bytes = fs::read(&rt, "out.nq")?;
        assert!(rt; bytes.as_slice() == text.as_bytes(), "{text}");
        let bytes = read_from(&rt, rt.alloc(), "out.nq")?;
        assert!(rt; bytes.as_slice() == text.as_bytes(), "{text}");
    }
    Ok(())
}

// A file that was not opened or made at the first call is tried again at the next.
#[test]
fn files_that_are_not_there(rt: HostRuntime) -> Result<(), Fail> {
    let mut file = InFile::new(&rt, "nothing.nq");
    assert!(rt; file.read(&mut [0u8; 2]).is_err());
    assert!(rt; file.read(&mut [0u8; 2]).is_err());
    let mut file = OutFile::new(rt.alloc(), &rt, "nothing/out.nq")?;
    assert!(rt; file.write(b"a").is_err());
    assert!(rt; file.flush().is_err());
    Ok(())
}

/// Whether the file of this path has this text.
fn has_text<R: Files + AllocGlobal>(rt: &R, path: &str, text: &str) -> io::Result<bool> {
    let bytes = fs::read_to_string(rt, path)?;
    Ok(bytes.as_str() == text)
}

// What is there stays until the new file is flushed, and then the new one has its permissions.
#[test]
fn a_file_is_replaced_whole(rt: HostRuntime) -> Result<(), Fail> {
    fs::write(&rt, "old.nq", "old")?;
    fs::set_permissions(&rt, "old.nq", Permissions::from_mode(0o600))?;
    let mut file = OutFile::new(rt.alloc(), &rt, "old.nq")?;
    file.write_all(b"new")?;
    assert!(rt; has_text(&rt, "old.nq", "old")?);
    file.flush()?;
    assert!(rt; has_text(&rt, "old.nq", "new")?);
    let mode = fs::metadata(&rt, "old.nq")?.permissions().mode();
    assert!(rt; mode % 512 == 0o600);
    Ok(())
}

// A file that is not flushed leaves nothing, and what was there as it was.
#[test]
fn a_file_is_not_replaced_in_part(rt: HostRuntime) -> Result<(), Fail> {
    fs::write(&rt, "old.nq", "old")?;
    for path in ["old.nq", "none.nq"] {
        let mut file = OutFile::new(rt.alloc(), &rt, path)?;
        file.write_all(b"new")?;
    }
    assert!(rt; has_text(&rt, "old.nq", "old")?);
    for path in [
        "none.nq",
        "old.nq.sparql-block-new",
        "none.nq.sparql-block-new",
    ] {
        assert!(rt; fs::metadata(&rt, path).is_err(), "{path}");
    }
    Ok(())
}

// What a link leads to is written, and the link stays.
#[test]
fn a_link_is_written_through(rt: HostRuntime) -> Result<(), Fail> {
    fs::write(&rt, "old.nq", "old")?;
    symlink(&rt, "old.nq", "link.nq")?;
    write_to(&rt, "link.nq", "new")?;
    assert!(rt; has_text(&rt, "old.nq", "new")?);
    assert!(rt;
        fs::symlink_metadata(&rt, "link.nq")?
            .file_type()
            .is_symlink()
    );
    Ok(())
}

/// What is told of files of these paths for the base, the block and the dataset: a fault, or
/// nothing.
fn told_of<R: Files + AllocGlobal>(rt: &R, paths: (&str, &str, &str)) -> io::Result<String> {
    let mut base = Watched::new(InFile::new(rt, paths.0));
    let mut block = Watched::new(InFile::new(rt, paths.1));
    let mut dataset = Watched::new(OutFile::new(rt.alloc(), rt, paths.2)?);
    let mut replies = Watched::new(Vec::new(rt.alloc()));
    let outcome = serial_engine(
        rt.alloc(),
        &mut base,
        &mut block,
        &mut dataset,
        &mut replies,
    );
    let told = match outcome {
        Ok(()) => String::new(rt.alloc()),
        Err(fault) => fault.to_string(rt.alloc())?,
    };
    Ok(told)
}

/// The paths of a base, a block and a dataset, and what is told.
type Row = ((&'static str, &'static str, &'static str), &'static str);

const ROWS: [Row; 6] = [
    (("base.nq", "block.ru", "dataset.nq"), ""),
    (
        ("none.nq", "block.ru", "dataset.nq"),
        "file: cannot read base",
    ),
    (
        ("base.nq", "none.ru", "dataset.nq"),
        "file: cannot read block",
    ),
    (
        ("base.nq", "block.ru", "none/dataset.nq"),
        "file: cannot write answer",
    ),
    // The base comes first.
    (
        ("none.nq", "none.ru", "dataset.nq"),
        "file: cannot read base",
    ),
    (("block.ru", "none.ru", "dataset.nq"), "base: bad line 1"),
];

#[test]
fn engines_over_files(rt: HostRuntime) -> Result<(), Fail> {
    fs::write(&rt, "base.nq", "<http://e/b> <http://e/p> <http://e/b> .")?;
    fs::write(
        &rt,
        "block.ru",
        "INSERT DATA { <http://e/a> <http://e/p> <http://e/b> }",
    )?;
    for (paths, line) in &ROWS {
        let told = told_of(&rt, *paths)?;
        assert!(rt; told.as_str() == *line, "{line}");
    }
    let dataset = fs::read_to_string(&rt, "dataset.nq")?;
    assert!(rt;
        dataset.as_str()
            == "<http://e/a> <http://e/p> <http://e/b> .\n<http://e/b> <http://e/p> <http://e/b> .\n"
    );
    Ok(())
}
