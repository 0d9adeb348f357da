use eb_base::Width;
use eb_client::{ClientCommand, client_command_of};
use std::alloc::{AllocError, Global};
use std::test::Fail;

fn words_of(alloc: Global, words: &[&str]) -> Result<Vec<String>, AllocError> {
    let mut all = Vec::new(alloc);
    for word in words {
        all.push(String::from_str(alloc, word)?)?;
    }
    Ok(all)
}

#[test]
fn one_word_is_read(rt: HostRuntime) -> Result<(), Fail> {
    let words = words_of(rt.alloc(), &["read", "soc:60368", "0x1e/2"])?;
    let read = ClientCommand::Read {
        address: "soc:60368",
        place: 30,
        width: Width::W16,
    };
    assert_eq!(rt; client_command_of(&words), Some(read));
    Ok(())
}

#[test]
fn one_word_is_written(rt: HostRuntime) -> Result<(), Fail> {
    let words = words_of(rt.alloc(), &["write", "soc:60368", "16", "4294967295"])?;
    let write = ClientCommand::Write {
        address: "soc:60368",
        place: 16,
        width: Width::W32,
        value: 0xffff_ffff,
    };
    assert_eq!(rt; client_command_of(&words), Some(write));
    Ok(())
}

// Words that are no command of a client.
static REFUSED: [[&str; 4]; 8] = [
    ["write", "soc", "2", "1"],
    ["write", "soc", "0x10/3", "1"],
    ["write", "soc", "0x10/0x4", "1"],
    ["write", "soc", "16/1", "256"],
    ["write", "soc", "16/", "1"],
    ["write", "soc", "0x", "1"],
    ["write", "", "16", "1"],
    ["write", "soc", "18446744073709551616", "1"],
];

#[test]
fn words_are_refused(rt: HostRuntime) -> Result<(), Fail> {
    for row in &REFUSED {
        let words = words_of(rt.alloc(), row)?;
        assert!(rt; client_command_of(&words).is_none());
    }
    Ok(())
}
